// The cells of a program by their paths, and the values of its enumerations by their names.
ghost use Rattle.std.specs.Prelude.{◌≡◌, ◌↔◌, ◌+◌, ◌<◌, ◌^◌, ℕ, List, ◌∷◌, ◌++◌, IsTrue, IfOk, MatchOption, drop, length};
ghost use Rattle.source_tree.specs.SyntaxView.{names_view};
ghost use Rattle.program_tree.specs.View.{cell_view, cells_view, program_view};
ghost use Rattle.typing.specs.Programs.{joined, own_type, cell_meaning, cell_among, value_among, member_of};
ghost use Rattle.clause_types.specs.PathHashes.{FindsHashes};
ghost use Rattle.clause_types.specs.PlacesByPath.{place_of, place_by_path};
ghost use Rattle.clause_types.specs.Sides.{FindsValues};

use crate::enumeration_values::{Values, find_meaning, values};
use crate::path_hashes::{FirstPlaces, find_first, find_first_of, first_places};
use program_tree::{Cell, Program};
use source_tree::Name;
use std::alloc::{AllocError, Global};
use typing::{Meaning, Place};

// What the path of a cell at a place stands for.
fn cell_meaning(cell: &Cell, place: usize) -> Meaning
    ensures { result ≡ cell_meaning own_type place (cell_view cell.now) }
{
    Meaning {
        place: Place::Cell(place),
        kind: cell.kind,
        range: cell.range,
        whole: true,
        assignable: false,
        control: false,
    }
}

// What stands in a text behind a front of it.
fn after<'t>(text: &'t [u8], front: &[u8]) -> Option<&'t [u8]>
    ensures { MatchOption result ((rest : List ℕ) → text.now ≡ front.now ++ rest → ⊥) (λ rest. text.now ≡ front.now ++ rest.now) }
{
    text.strip_prefix(front)
}

// What stands in a text behind a point and a name.
fn after_point<'t>(text: &'t [u8], name: &[u8]) -> Option<&'t [u8]>
    ensures { MatchOption result ((rest : List ℕ) → text.now ≡ 46 ∷ (name.now ++ rest) → ⊥) (λ rest. text.now ≡ 46 ∷ (name.now ++ rest.now)) }
{
    let (point, rest) = text.split_first()?;
    if *point == b'.' {
        after(rest, name)
    } else {
        None
    }
}

// Whether a text is these names, joined by points.
fn is_joined(text: &[u8], members: &[Name]) -> bool
    ensures { IsTrue result ↔ (text.now ≡ joined (names_view members.now)) }
{
    let Some((first, others)) = members.split_first() else {
        return text.is_empty();
    };
    let Some(behind) = after(text, first.text.as_bytes()) else {
        return false;
    };
    let mut rest = behind;
    for member in others {
        let Some(behind) = after_point(rest, member.text.as_bytes()) else {
            return false;
        };
        rest = behind;
    }
    rest.is_empty()
}

// What the joined names stand for, among cells that begin at a place.
fn search_cells(start: usize, cells: &[Cell], members: &[Name]) -> Option<Meaning>
    requires { start + length cells.now < 2 ^ 64 }
    ensures { result ≡ cell_among own_type (joined (names_view members.now)) start (cells_view cells.now) }
{
    for (index, cell) in cells.iter().enumerate() {
        if is_joined(cell.path.as_bytes(), members) {
            return Some(cell_meaning(cell, start + index));
        }
    }
    None
}

// The same among those that stand from the first one with a hash on.
fn search_from(first: usize, start: usize, cells: &[Cell], members: &[Name]) -> Option<Meaning>
    requires room { start + length cells.now < 2 ^ 64 }
    requires within { first < length cells.now }
    ensures { result ≡ cell_among own_type (joined (names_view members.now)) (start + first) (cells_view (drop first cells.now)) }
{
    search_cells(start + first, &cells[first..], members)
}

// The place of the first cell of a path, from a place on.
fn search_path(first: usize, cells: &[Cell], path: &str) -> Option<usize>
    ensures { result ≡ place_of (cell_among own_type path.now first (cells_view (drop first cells.now))) }
{
    for index in first..cells.len() {
        if cells[index].path.as_bytes() == path.as_bytes() {
            return Some(index);
        }
    }
    None
}

/// The cells and values of one program of a pair, whose cells' places begin at a place.
#[derive(Drop)]
pub struct Side<'p> {
    pub start: usize,
    pub program: &'p Program,
    first_places: FirstPlaces,
    pub(crate) values: Values<'p>,
    ghost finds: { FindsHashes first_places 0 (program_view program.now).cells },
    ghost finds_values: { FindsValues values 0 (program_view program.now).types },
    ghost room: { start + length (program_view program.now).cells < 2 ^ 64 },
}

impl<'p> Side<'p> {
    /// The cells and values of a program, to be looked up.
    pub fn new(alloc: Global, start: usize, program: &'p Program) -> Result<Side<'p>, AllocError>
        requires { start + length (program_view program.now).cells < 2 ^ 64 }
        ensures { IfOk result (λ side. (side.start ≡ start) × (side.program.now ≡ program.now)) }
    {
        let first_places = first_places(alloc, program.cells())?;
        let values = values(alloc, &program.types)?;
        Ok(Side {
            start,
            program,
            first_places,
            values,
        })
    }

    /// The place among the program's cells of the first one of a path.
    pub fn find_place(&self, path: &str) -> Option<usize>
        ensures { result ≡ place_by_path path.now (program_view self.now.program.now).cells }
    {
        let first = find_first_of(&self.first_places, path)?;
        search_path(first, self.program.cells(), path)
    }

    // The cell of these names, joined by points: the first of their hash, or where that has another path, one behind it.
    fn find_cell(&self, members: &[Name]) -> Option<Meaning>
        ensures { result ≡ cell_among own_type (joined (names_view members.now)) self.now.start (program_view self.now.program.now).cells }
    {
        let first = find_first(&self.first_places, members)?;
        search_from(first, self.start, self.program.cells(), members)
    }

    // The value that the one of these names is.
    fn find_value(&self, members: &[Name]) -> Option<Meaning>
        ensures { result ≡ value_among own_type (names_view members.now) (program_view self.now.program.now).types }
    {
        let (name, others) = members.split_first()?;
        if !others.is_empty() {
            return None;
        }
        find_meaning(&self.values, name.text.as_str())
    }

    /// What the names behind the program's name stand for: a cell, or else a value.
    pub fn find(&self, members: &[Name]) -> Option<Meaning>
        ensures { result ≡ member_of own_type self.now.start (program_view self.now.program.now) (names_view members.now) }
    {
        match self.find_cell(members) {
            Some(meaning) => Some(meaning),
            None => self.find_value(members),
        }
    }
}
