// Cells and their ranges.
ghost use Rattle.std.specs.Prelude.{◌≡◌, IfOk, slice_set};
ghost use Rattle.plc_types.specs.Types.{in_range};
ghost use Rattle.program_tree.specs.View.{cells_view};
ghost use Rattle.scan_model.specs.Scans.{ranges_of};

use plc_types::{Range, Value};
use program_tree::Cell;
use std::alloc::{AllocError, Global};

/// The ranges of cells, one behind the other.
pub fn ranges_of(alloc: Global, cells: &[Cell]) -> Result<Vec<Range>, AllocError>
    ensures { IfOk result (λ ranges. ranges.items ≡ ranges_of (cells_view cells.now)) }
{
    let mut ranges = Vec::new(alloc);
    for cell in cells {
        ranges.push(cell.range)?;
    }
    Ok(ranges)
}

/// Whether a value lies in a range.
#[inline(always)]
pub fn is_in_range(value: Value, range: Range) -> bool
    ensures { result ≡ in_range value range }
{
    range.low <= value && value <= range.high
}

/// Puts a value into a cell, where there is one.
#[inline(always)]
pub fn put(state: &mut [Value], place: usize, value: Value)
    ensures { state.new ≡ slice_set state.old place value }
{
    if place < state.len() {
        state[place] = value;
    }
}
