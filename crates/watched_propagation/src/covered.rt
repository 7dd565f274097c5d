// Clauses of which a later one is a part: where that one is neither false nor unit, they are not, so they need not be looked at.

ghost use Rattle.std.specs.Prelude.{◌≡◌, IsTrue};
ghost use Rattle.watched_propagation.specs.Watching.{is_part, IsCovered};
ghost use Rattle.watched_propagation.specs.Propagations.{IsPropagator};

use crate::arena::Arena;
use crate::watch::{Pair, WatchList};
use propagation_trail::{Trail, write};

/// Whether the literals of a clause stand in another, in the same order.
fn is_part(part: &[u32], whole: &[u32]) -> bool
    ensures { result ≡ is_part part.now whole.now }
{
    let mut rest = part;
    for code in whole {
        match rest.split_first() {
            None => return true,
            Some((first, more)) => {
                if *first == *code {
                    rest = more;
                }
            }
        }
    }
    rest.is_empty()
}

/// Whether a later clause is known to be a part of a clause.
fn is_covered(arena: &Arena, clause: usize, by: usize) -> bool
    ensures { IsTrue result → IsCovered arena.now clause }
{
    clause < by && by < arena.len() && is_part(arena.codes(by), arena.codes(clause))
}

/// Lets a clause watch nothing any more, where a later one is a part of it; else nothing changes.
pub(crate) fn let_go(
    arena: &Arena,
    pairs: &mut [Pair],
    lists: &[WatchList],
    trail: &Trail,
    loose: &[usize],
    clause: usize,
    by: usize,
)
    requires { IsPropagator arena.now pairs.old lists.now trail.now loose.now }
    ensures { IsPropagator arena.now pairs.new lists.now trail.now loose.now }
{
    if is_covered(arena, clause, by) {
        write(pairs, clause, Pair::NONE);
    }
}
