// States and rows: their ranges, and how they are written.
ghost use Rattle.std.specs.Prelude.{◌≡◌, ◌<◌, ◌↔◌, pos, length, slice_index_or, IsTrue, IfOk};
ghost use Rattle.program_tree.specs.View.{cells_view};
ghost use Rattle.scan_model.specs.Scans.{ranges_of, initial};
ghost use Rattle.scan_model.specs.InRange.{IsInRange, put_at};

use crate::cells::{is_in_range, put};
use plc_types::Value;
use program_tree::Cell;
use std::alloc::{AllocError, Global};

/// The values that the cells begin with.
pub fn start(alloc: Global, cells: &[Cell]) -> Result<Vec<Value>, AllocError>
    ensures { IfOk result (λ state. state.items ≡ initial (cells_view cells.now)) }
{
    let mut state = Vec::new(alloc);
    for cell in cells {
        state.push(cell.initial)?;
    }
    Ok(state)
}

/// Whether each cell has one value, in its range.
pub fn state_fits(cells: &[Cell], values: &[Value]) -> bool
    ensures { IsTrue result ↔ IsInRange (ranges_of (cells_view cells.now)) values.now }
{
    if cells.len() != values.len() {
        return false;
    }
    for (place, cell) in cells.iter().enumerate() {
        if !is_in_range(values[place], cell.range) {
            return false;
        }
    }
    true
}

/// Puts the numbers of a row into the cells at the places.
pub fn put_all(places: &[usize], row: &[Value], state: &mut [Value])
    ensures { state.new ≡ put_at places.now row.now state.old }
{
    for (i, place) in places.iter().enumerate() {
        if i >= row.len() {
            return;
        }
        put(state, *place, row[i]);
    }
}

/// Writes each value.
pub fn copy_over(state: &mut [Value], values: &[Value])
    requires { length state.old ≡ length values.now }
    ensures { state.new ≡ values.now }
{
    state.copy_from_slice(values);
}

/// The values that the cells begin with, again.
pub fn reset(cells: &[Cell], state: &mut [Value])
    requires { length state.old ≡ length cells.now }
    ensures { state.new ≡ initial (cells_view cells.now) }
{
    for (place, cell) in cells.iter().enumerate() {
        state[place] = cell.initial;
    }
}

/// The value of a cell.
pub fn value_at(state: &[Value], cell: usize) -> Value
    requires { cell < length state.now }
    ensures { result ≡ slice_index_or state.now cell (pos 0) }
{
    state[cell]
}
