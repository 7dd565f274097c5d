// The sizes of POUs, and M2: how many cells a PROGRAM has.
ghost use Rattle.std.specs.Prelude.{◌≡◌, map, slice_set, IfOk};
ghost use Rattle.decl_types.specs.Bodies.{file_in};
ghost use Rattle.decl_types.specs.ToldView.{told_view};
ghost use Rattle.typing.specs.Places.{sizes_of};
ghost use Rattle.typing.specs.Pous.{has_room};
ghost use Rattle.pou_cells.specs.Placing.{capped, capped_cells};

use crate::places::cells_taken;
use crate::pous::Pous;
use decl_types::Told;
use std::alloc::{AllocError, Global};

/// How many cells a program has at most.
const MOST_CELLS: usize = 4096;

/// How many cells variables take; the greatest number of 64 bits stands for any greater one.
pub(crate) fn capped_cells(sizes: &[usize], tolds: &[Told<'_>]) -> usize
    ensures { result ≡ capped_cells sizes.now (map told_view tolds.now) }
{
    let mut count: usize = 0;
    for told in tolds {
        count = count.saturating_add(cells_taken(sizes, told));
    }
    count
}

// Keeps a size at a number, where there is one of that number.
fn keep(sizes: &mut [usize], number: usize, size: usize)
    ensures { sizes.new ≡ slice_set sizes.old number size }
{
    if number < sizes.len() {
        sizes[number] = size;
    }
}

/// The sizes of the POUs that are reached; the greatest number of 64 bits stands for any greater one.
#[tactic(auto, unfolding(typing::specs::Places::sizes_of))]
pub fn capped_sizes(alloc: Global, pous: &Pous<'_>) -> Result<Vec<usize>, AllocError>
    ensures { IfOk result (λ sizes. sizes.items ≡ map capped (sizes_of (file_in pous.now.domains))) }
{
    let mut sizes = vec![in alloc; 0; pous.domains.types.names.pou_count()]?;
    for number in &pous.reached {
        let size = capped_cells(&sizes, pous.told_at(*number));
        keep(&mut sizes, *number, size);
    }
    Ok(sizes)
}

/// M2: whether the PROGRAM of a number has at most so many cells, FAULT and those of its instances among them.
pub fn has_room(pous: &Pous<'_>, sizes: &[usize], number: usize) -> bool
    requires { sizes.now ≡ map capped (sizes_of (file_in pous.now.domains)) }
    ensures { result ≡ has_room (file_in pous.now.domains) number }
{
    capped_cells(sizes, pous.told_at(number)) < MOST_CELLS
}
