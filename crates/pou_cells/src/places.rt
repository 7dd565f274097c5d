// Where the cells of a POU's names stand.
ghost use Rattle.std.specs.Prelude.{◌≡◌, ◌<◌, ◌≤◌, ◌+◌, ◌^◌, map};
ghost use Rattle.source_tree.specs.SyntaxView.{pou_type_view};
ghost use Rattle.typing.specs.Places.{size_among};
ghost use Rattle.decl_types.specs.ToldView.{told_view};
ghost use Rattle.pou_cells.specs.ToldPlaces.{told_cells, told_count, told_front, told_places_from, told_first_places, told_first_place, told_places_behind};

use crate::roles::{has_cell, is_front};
use decl_types::Told;
use source_tree::PouType;
use typing::Next;

/// How many cells an instance of a block takes, or a variable that is none.
pub fn size_among(sizes: &[usize], block: Option<usize>) -> usize
    ensures { result ≡ size_among sizes.now block }
{
    match block {
        None => 1,
        Some(block) => sizes.get(block).copied().unwrap_or(0),
    }
}

/// How many cells a variable takes.
pub fn cells_taken(sizes: &[usize], told: &Told<'_>) -> usize
    ensures { result ≡ told_cells sizes.now (told_view told.now) }
{
    if !has_cell(told.role) {
        0
    } else if told.role.is_step() {
        2
    } else {
        size_among(sizes, told.block)
    }
}

// How many cells the variables take that stand before all others.
fn count_of_front(sizes: &[usize], of_function: bool, tolds: &[Told<'_>]) -> usize
    requires { told_count sizes.now (map told_view tolds.now) < 2 ^ 62 }
    ensures { result ≡ told_count sizes.now (told_front of_function (map told_view tolds.now)) }
{
    let mut front = 0;
    for told in tolds {
        if is_front(of_function, told.role) {
            front += cells_taken(sizes, told);
        }
    }
    front
}

// Where the cells of a POU's variables begin behind those that each such POU has.
fn places_from(sizes: &[usize], of_function: bool, first: usize, tolds: &[Told<'_>]) -> Next
    requires first { first ≤ 1 }
    requires few { told_count sizes.now (map told_view tolds.now) < 2 ^ 62 }
    ensures { result ≡ told_places_from sizes.now of_function first (map told_view tolds.now) }
{
    Next {
        of_function,
        front: first,
        rest: first + count_of_front(sizes, of_function, tolds),
    }
}

/// Where the cells of a POU's variables begin.
pub fn first_places(sizes: &[usize], pou_type: &PouType, tolds: &[Told<'_>]) -> Next
    requires { told_count sizes.now (map told_view tolds.now) < 2 ^ 62 }
    ensures { result ≡ told_first_places sizes.now (pou_type_view pou_type.now) (map told_view tolds.now) }
{
    match pou_type {
        PouType::Function(_) => places_from(sizes, true, 1, tolds),
        PouType::FunctionBlock => places_from(sizes, false, 0, tolds),
        PouType::Program => places_from(sizes, false, 1, tolds),
    }
}

/// Where a variable's cells begin.
pub fn first_place(next: Next, told: &Told<'_>) -> usize
    ensures { result ≡ told_first_place next (told_view told.now) }
{
    if is_front(next.of_function, told.role) {
        next.front
    } else {
        next.rest
    }
}

/// The next places behind a variable.
pub fn places_behind(sizes: &[usize], next: Next, told: &Told<'_>) -> Next
    requires { told_first_place next (told_view told.now) + told_cells sizes.now (told_view told.now) < 2 ^ 64 }
    ensures { result ≡ told_places_behind sizes.now next (told_view told.now) }
{
    let taken = cells_taken(sizes, told);
    if is_front(next.of_function, told.role) {
        let front = next.front + taken;
        Next { front, ..next }
    } else {
        let rest = next.rest + taken;
        Next { rest, ..next }
    }
}
