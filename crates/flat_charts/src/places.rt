// Places of cells.
ghost use Rattle.std.specs.Prelude.{◌≡◌, ◌+◌, ◌∷◌, slice_index_or};
ghost use Rattle.program_tree.specs.Tree.{cell};
ghost use Rattle.program_tree.specs.View.{expr_view};
ghost use Rattle.flat_charts.specs.Views.{owner_view, HasPlace};

use crate::scope::{FlatScope, Owner};
use program_tree::TypedExpr;

/// Where a cell of a POU stands among the cells and scratch cells.
pub fn place_at(scope: &FlatScope<'_, '_>, place: usize) -> usize
    requires { HasPlace scope.now.base place }
    ensures { result ≡ owner_view scope.now.owner (scope.now.base + place) }
{
    owner_place(&scope.owner, scope.base + place)
}

fn owner_place(owner: &Owner<'_>, place: usize) -> usize
    ensures { result ≡ owner_view owner.now place }
{
    match owner {
        Owner::Program => place,
        Owner::Call(answer, places) => call_place(*answer, places, place),
    }
}

fn call_place(answer: usize, places: &[usize], place: usize) -> usize
    ensures { result ≡ slice_index_or (0 ∷ answer ∷ places.now) place 0 }
{
    match place {
        0 => 0,
        1 => answer,
        _ => places.get(place - 2).copied().unwrap_or(0),
    }
}

/// The value of the cell at a place.
pub fn cell_at(place: usize) -> TypedExpr
    ensures { expr_view result ≡ cell place }
{
    TypedExpr::Cell(place)
}
