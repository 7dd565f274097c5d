// Whether nothing is left to propagate.

ghost use Rattle.std.specs.Prelude.{ℕ, IsTrue, Contains};
ghost use Rattle.clause_core.specs.Propagation.{IsClosed};
ghost use Rattle.watched_propagation.specs.Watching.{clause_in, Meets};
ghost use Rattle.watched_propagation.specs.Propagations.{literals_of, IsPropagator};

use crate::arena::Arena;
use crate::watch::{Pair, WatchList};
use propagation_trail::Trail;

/// Whether a literal of the clause is true.
#[inline(always)]
fn is_satisfied(codes: &[u32], trail: &Trail) -> bool
    ensures { IsTrue result → Meets codes.now trail.now.literals }
{
    for code in codes {
        if trail.is_true(*code) {
            return true;
        }
    }
    false
}

/// Whether each of these clauses has a true literal.
fn are_satisfied(arena: &Arena, trail: &Trail, places: &[usize]) -> bool
    ensures { IsTrue result → (k : ℕ) → Contains places.now k → Meets (clause_in arena.now k) trail.now.literals }
{
    for place in places {
        if !is_satisfied(arena.codes(*place), trail) {
            return false;
        }
    }
    true
}

/// Whether all was propagated, and each clause that watches nothing is true.
pub(crate) fn is_closed(
    arena: &Arena,
    pairs: &[Pair],
    lists: &[WatchList],
    trail: &Trail,
    loose: &[usize],
) -> bool
    requires { IsPropagator arena.now pairs.now lists.now trail.now loose.now }
    ensures { IsTrue result → IsClosed (literals_of arena.now) trail.now.values }
{
    if !trail.is_propagated() {
        return false;
    }
    are_satisfied(arena, trail, loose)
}
