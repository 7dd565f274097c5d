// What places take.
ghost use Rattle.std.specs.Prelude.{◌≡◌, ◌++◌, IfOk, map};
ghost use Rattle.program_tree.specs.View.{cells_view};
ghost use Rattle.program_tree.specs.Places.{of_cell, place_at};

use plc_types::{Elementary, Range};
use program_tree::{Cell, Scratch};
use std::alloc::{AllocError, Global};

/// What a place takes; where there is no place, a BOOL of no value.
pub fn place_at(places: &[Scratch], place: usize) -> Scratch
    ensures { result ≡ place_at places.now place }
{
    if place < places.len() {
        places[place]
    } else {
        Scratch {
            kind: Elementary::Bool,
            range: Range { low: 1, high: 0 },
            is_subrange: false,
        }
    }
}

/// What the places of cells and behind them those of scratch cells take.
pub fn places_of(
    cells: &[Cell],
    scratch: &[Scratch],
    alloc: Global,
) -> Result<Vec<Scratch>, AllocError>
    ensures { IfOk result (λ places. places.items ≡ map of_cell (cells_view cells.now) ++ scratch.now) }
{
    let mut places = Vec::new(alloc);
    for cell in cells {
        places.push(Scratch {
            kind: cell.kind.carrier(),
            range: cell.range,
            is_subrange: cell.is_subrange,
        })?;
    }
    places.extend_from_slice(scratch)?;
    Ok(places)
}
