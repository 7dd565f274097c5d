// Two literals of a new clause to watch.

ghost use Rattle.std.specs.Prelude.{◌≢◌, ◌<◌, length, Contains, IsTrue, IfOk};
ghost use Rattle.watched_propagation.specs.Watching.{pair_in, IsWatching, KeepsWatched};
ghost use Rattle.watched_propagation.specs.Propagations.{IsWatchable};

use crate::arena::Arena;
use crate::watch::{Pair, Watch, WatchList, push_watch};
use propagation_trail::{Trail, write};
use std::alloc::AllocError;

/// Whether a literal stands in a clause.
fn has(codes: &[u32], code: u32) -> bool
    ensures { IsTrue result → Contains codes.now code }
{
    for other in codes {
        if *other == code {
            return true;
        }
    }
    false
}

/// Whether a clause may watch these two literals.
fn may_watch(codes: &[u32], one: u32, other: u32, limit: usize) -> bool
    ensures apart { IsTrue result → one ≢ other }
    ensures one { IsTrue result → Contains codes.now one }
    ensures other { IsTrue result → Contains codes.now other }
    ensures one_within { IsTrue result → one < limit }
    ensures other_within { IsTrue result → other < limit }
{
    one != other
        && (one as usize) < limit
        && (other as usize) < limit
        && has(codes, one)
        && has(codes, other)
}

/// Lets a clause watch two of its literals, where they are two. Where memory ends, it watches none.
pub(crate) fn watch_both(
    arena: &Arena,
    pairs: &mut [Pair],
    lists: &mut [WatchList],
    trail: &Trail,
    clause: usize,
    one: u32,
    other: u32,
) -> Result<bool, AllocError>
    requires watching { IsWatching arena.now pairs.old lists.old trail.now }
    requires pair { clause < length pairs.old }
    requires one { IsWatchable trail.now one one }
    requires other { IsWatchable trail.now one other }
    ensures watching { IsWatching arena.now pairs.new lists.new trail.now }
    ensures kept { KeepsWatched pairs.old pairs.new }
    ensures watched { IfOk result (λ b. IsTrue b → (pair_in pairs.new clause).first ≢ (pair_in pairs.new clause).second) }
{
    let limit = lists.len();
    if clause >= 0x1_0000_0000 {
        return Ok(false);
    }
    let codes = arena.codes(clause);
    if !may_watch(codes, one, other, limit) {
        return Ok(false);
    }
    let is_short = codes.len() == 2;
    let number = clause as u32;
    push_watch(
        lists,
        one,
        Watch {
            clause: number,
            blocker: other,
            is_short,
        },
    )?;
    push_watch(
        lists,
        other,
        Watch {
            clause: number,
            blocker: one,
            is_short,
        },
    )?;
    write(
        pairs,
        clause,
        Pair {
            first: one,
            second: other,
            next: 0,
        },
    );
    Ok(true)
}
