// The clauses that watch a literal which became false.

ghost use Rattle.std.specs.Prelude.{◌≡◌, ◌≢◌, ℕ, ◌<◌, ◌≤◌, ◌+◌, ◌-◌, ◌*◌, length, Some, slice_get, slice_index_or, Contains, IsTrue, IfOk, IfSome, OnOk};
ghost use Rattle.propagation_trail.specs.Codes.{negated};
ghost use Rattle.propagation_trail.specs.Trails.{Grown};
ghost use Rattle.watched_propagation.specs.Watching.{clause_in, pair_in, list_in, watch_in, IsWatch, IsWatching, KeepsLasting, KeepsWatched};
ghost use Rattle.watched_propagation.specs.Visits.{IsOther, IsReplacement, IsSettledAs, IsVisiting, IsVisitedAs, IsVisitedUnless};

use crate::arena::Arena;
use crate::levels::assume;
use crate::watch::{Pair, Watch, WatchList, other_watched, push_watch, remove_watch, set_watch};
use propagation_trail::{ClauseRef, Trail, low, negated, read, write};
use std::alloc::AllocError;

/// What becomes of a clause that watches a literal which became false.
#[derive(Clone, Copy)]
pub(crate) enum Settled {
    /// It watches that literal no more.
    Moved,
    /// This literal of it is true.
    Satisfied(u32),
    /// It is false.
    Conflict,
}

/// A literal of a clause that may be watched, and the place behind it.
#[derive(Clone, Copy)]
pub(crate) struct Found {
    pub code: u32,
    pub next: u32,
}

/// What one turn of a visit comes to.
#[derive(Clone, Copy)]
pub(crate) enum Visited {
    /// No watch is left.
    Done,
    /// The place of the watch that is next.
    Next(usize),
    /// The clause of this place is false.
    Falsified(u32),
}

/// The first place from this one on of a watch whose blocker is not true.
#[inline(always)]
fn next_place(trail: &Trail, list: &[Watch], start: usize) -> usize
    ensures from { start ≤ result }
    ensures passed { (i : ℕ) → start ≤ i → i < result → Contains trail.now.literals (watch_in list.now i).blocker }
{
    let mut place = start;
    while place < list.len() {
        if !trail.is_true(list[place].blocker) {
            break;
        }
        place += 1;
    }
    place
}

/// Whether the literal at a place is not false and not this other one.
#[inline(always)]
fn is_free_at(codes: &[u32], trail: &Trail, other: u32, limit: usize, place: usize) -> bool
    requires { place < length codes.now }
    ensures apart { IsTrue result → slice_index_or codes.now place 0 ≢ other }
    ensures within { IsTrue result → slice_index_or codes.now place 0 < limit }
    ensures free { IsTrue result → Contains trail.now.literals (negated (slice_index_or codes.now place 0)) → ⊥ }
{
    let code = codes[place];
    trail.is_free(code) && code != other && (code as usize) < limit
}

/// A literal from one place of a clause to another that is not false and is not this other one.
#[inline(always)]
fn find_between(
    codes: &[u32],
    trail: &Trail,
    other: u32,
    limit: usize,
    start: usize,
    end: usize,
) -> Option<Found>
    requires { end ≤ length codes.now }
    ensures { IfSome result (λ f. IsReplacement codes.now trail.now.literals other limit f.code) }
{
    for place in start..end {
        if is_free_at(codes, trail, other, limit, place) {
            return Some(Found {
                code: codes[place],
                next: low(place + 1),
            });
        }
    }
    None
}

/// A literal of a clause that is not false and is not this other one. The search begins at a place, and
/// goes on from the first literal where it comes to the end.
#[inline(always)]
fn find_round(codes: &[u32], trail: &Trail, other: u32, limit: usize, start: u32) -> Option<Found>
    ensures { IfSome result (λ f. IsReplacement codes.now trail.now.literals other limit f.code) }
{
    let middle = (start as usize).min(codes.len());
    match find_between(codes, trail, other, limit, middle, codes.len()) {
        Some(found) => Some(found),
        None => find_between(codes, trail, other, limit, 0, middle),
    }
}

/// The first literal of a clause that is not false and is not this other one.
pub(crate) fn find_other(codes: &[u32], trail: &Trail, other: u32, limit: usize) -> Option<u32>
    ensures { IfSome result (IsReplacement codes.now trail.now.literals other limit) }
{
    match find_between(codes, trail, other, limit, 0, codes.len()) {
        Some(found) => Some(found.code),
        None => None,
    }
}

/// Lets a clause watch another literal in place of a false one.
#[inline(always)]
fn move_watch(
    arena: &Arena,
    pairs: &mut [Pair],
    lists: &mut [WatchList],
    trail: &Trail,
    falsified: u32,
    clause: u32,
    other: u32,
    found: Found,
) -> Result<(), AllocError>
    requires watching { IsWatching arena.now pairs.old lists.old trail.now }
    requires falsified { Contains trail.now.literals (negated falsified) }
    requires other { IsOther (pair_in pairs.old clause) falsified other }
    requires replacement { IsReplacement (clause_in arena.now clause) trail.now.literals other (length lists.old) found.code }
    ensures watching { IsWatching arena.now pairs.new lists.new trail.now }
    ensures kept { KeepsWatched pairs.old pairs.new }
    ensures others { (k : ℕ) → (k ≡ clause → ⊥) → pair_in pairs.new k ≡ pair_in pairs.old k }
    ensures same { list_in lists.new falsified ≡ list_in lists.old falsified }
    ensures moved { OnOk result (IsWatch (pair_in pairs.new clause) falsified → ⊥) }
{
    let watch = Watch {
        clause,
        blocker: other,
        is_short: false,
    };
    push_watch(lists, found.code, watch)?;
    let pair = Pair {
        first: found.code,
        second: other,
        next: found.next,
    };
    write(pairs, clause as usize, pair);
    Ok(())
}

/// Lets a clause watch another literal in place of a false one, or makes its last literal true.
#[inline(always)]
fn settle(
    arena: &Arena,
    pairs: &mut [Pair],
    lists: &mut [WatchList],
    trail: &mut Trail,
    falsified: u32,
    clause: u32,
) -> Result<Settled, AllocError>
    requires watching { IsWatching arena.now pairs.old lists.old trail.old }
    requires falsified { Contains trail.old.literals (negated falsified) }
    ensures watching { IsWatching arena.now pairs.new lists.new trail.new }
    ensures grown { Grown trail.old trail.new }
    ensures kept { KeepsWatched pairs.old pairs.new }
    ensures others { (k : ℕ) → (k ≡ clause → ⊥) → pair_in pairs.new k ≡ pair_in pairs.old k }
    ensures same { list_in lists.new falsified ≡ list_in lists.old falsified }
    ensures settled { IfOk result (IsSettledAs arena.now pairs.new trail.new.literals falsified clause) }
{
    let pair = read(pairs, clause as usize, Pair::NONE);
    let Some(other) = other_watched(pair, falsified) else {
        return Ok(Settled::Moved);
    };
    if trail.is_true(other) {
        return Ok(Settled::Satisfied(other));
    }
    let limit = lists.len();
    let codes = arena.codes(clause as usize);
    if let Some(found) = find_round(codes, trail, other, limit, pair.next) {
        move_watch(arena, pairs, lists, trail, falsified, clause, other, found)?;
        return Ok(Settled::Moved);
    }
    if !trail.is_open(other) {
        return Ok(Settled::Conflict);
    }
    trail.assign(other, ClauseRef::at(clause))?;
    Ok(Settled::Satisfied(other))
}

/// Settles the clause of a watch, without a look at it where it has no literals but two.
#[inline(always)]
fn settle_watch(
    arena: &Arena,
    pairs: &mut [Pair],
    lists: &mut [WatchList],
    trail: &mut Trail,
    falsified: u32,
    watch: Watch,
) -> Result<Settled, AllocError>
    requires watching { IsWatching arena.now pairs.old lists.old trail.old }
    requires falsified { Contains trail.old.literals (negated falsified) }
    requires blocker { Contains (clause_in arena.now watch.clause) watch.blocker }
    ensures watching { IsWatching arena.now pairs.new lists.new trail.new }
    ensures grown { Grown trail.old trail.new }
    ensures kept { KeepsWatched pairs.old pairs.new }
    ensures others { (k : ℕ) → (k ≡ watch.clause → ⊥) → pair_in pairs.new k ≡ pair_in pairs.old k }
    ensures same { list_in lists.new falsified ≡ list_in lists.old falsified }
    ensures settled { IfOk result (IsSettledAs arena.now pairs.new trail.new.literals falsified watch.clause) }
{
    if !watch.is_short {
        return settle(arena, pairs, lists, trail, falsified, watch.clause);
    }
    if assume(trail, watch.blocker, ClauseRef::at(watch.clause))? {
        Ok(Settled::Satisfied(watch.blocker))
    } else {
        Ok(Settled::Conflict)
    }
}

/// Goes on with a visit from a place of the list.
#[inline(always)]
fn visit_at(
    arena: &Arena,
    pairs: &mut [Pair],
    lists: &mut [WatchList],
    trail: &mut Trail,
    falsified: u32,
    start: usize,
) -> Result<Visited, AllocError>
    requires { IsVisiting arena.now pairs.old lists.old trail.old falsified start }
    ensures watching { IsWatching arena.now pairs.new lists.new trail.new }
    ensures grown { Grown trail.old trail.new }
    ensures kept { KeepsWatched pairs.old pairs.new }
    ensures visited { IfOk result (IsVisitedAs arena.now pairs.new lists.new trail.new falsified (length (list_in lists.old falsified) - start)) }
{
    let list = lists[falsified as usize].as_slice();
    let place = next_place(trail, list, start);
    if place >= list.len() {
        return Ok(Visited::Done);
    }
    let watch = list[place];
    let settled = settle_watch(arena, pairs, lists, trail, falsified, watch)?;
    match settled {
        Settled::Moved => {
            remove_watch(lists, falsified, place);
            Ok(Visited::Next(place))
        }
        Settled::Satisfied(blocker) => {
            let next = Watch {
                clause: watch.clause,
                blocker,
                is_short: watch.is_short,
            };
            set_watch(lists, falsified, place, next);
            Ok(Visited::Next(place + 1))
        }
        Settled::Conflict => Ok(Visited::Falsified(watch.clause)),
    }
}

/// Visits the clauses that watch a literal which became false. The answer is one that is false.
pub(crate) fn visit(
    arena: &Arena,
    pairs: &mut [Pair],
    lists: &mut [WatchList],
    trail: &mut Trail,
    falsified: u32,
) -> Result<Option<u32>, AllocError>
    requires watching { IsWatching arena.now pairs.old lists.old trail.old }
    requires within { falsified < length lists.old }
    requires falsified { Contains trail.old.literals (negated falsified) }
    ensures watching { IsWatching arena.now pairs.new lists.new trail.new }
    ensures grown { Grown trail.old trail.new }
    ensures kept { KeepsWatched pairs.old pairs.new }
    ensures visited { IfOk result (IsVisitedUnless arena.now pairs.new trail.new.literals falsified) }
{
    let mut place = 0usize;
    loop {
        let turn = visit_at(arena, pairs, lists, trail, falsified, place)?;
        match turn {
            Visited::Done => {
                return Ok(None);
            }
            Visited::Next(next) => {
                place = next;
            }
            Visited::Falsified(clause) => {
                return Ok(Some(clause));
            }
        }
    }
}

/// Propagates the next literal of the trail. The answer is a clause that is false.
#[inline(always)]
fn propagate_next(
    arena: &Arena,
    pairs: &mut [Pair],
    lists: &mut [WatchList],
    trail: &mut Trail,
    code: u32,
) -> Result<Option<u32>, AllocError>
    requires watching { IsWatching arena.now pairs.old lists.old trail.old }
    requires next { slice_get trail.old.literals trail.old.head ≡ Some code }
    requires within { code < 2 * length trail.old.values }
    ensures watching { IsWatching arena.now pairs.new lists.new trail.new }
    ensures lasting { KeepsLasting trail.old trail.new }
    ensures size { length trail.new.values ≡ length trail.old.values }
    ensures kept { KeepsWatched pairs.old pairs.new }
{
    let conflict = visit(arena, pairs, lists, trail, negated(code))?;
    if conflict.is_none() {
        trail.advance();
    }
    Ok(conflict)
}

/// Propagates to the end, or to a false clause.
pub(crate) fn propagate(
    arena: &Arena,
    pairs: &mut [Pair],
    lists: &mut [WatchList],
    trail: &mut Trail,
) -> Result<Option<u32>, AllocError>
    requires watching { IsWatching arena.now pairs.old lists.old trail.old }
    ensures watching { IsWatching arena.now pairs.new lists.new trail.new }
    ensures lasting { KeepsLasting trail.old trail.new }
    ensures size { length trail.new.values ≡ length trail.old.values }
    ensures kept { KeepsWatched pairs.old pairs.new }
{
    for _ in 0..u64::MAX {
        let Some(code) = trail.next() else {
            break;
        };
        let conflict = propagate_next(arena, pairs, lists, trail, code)?;
        if conflict.is_some() {
            return Ok(conflict);
        }
    }
    Ok(None)
}
