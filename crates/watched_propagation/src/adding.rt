// New clauses.

ghost use Rattle.std.specs.Prelude.{◌≡◌, ℕ, ◌<◌, ◌≤◌, ◌++◌, ◌∷◌, [], List, length, map, Contains, IsTrue, IfOk, OnOk};
ghost use Rattle.clause_core.specs.Clauses.{rank};
ghost use Rattle.watched_propagation.specs.declared.watch.Pair.{Pair};
ghost use Rattle.watched_propagation.specs.declared.watch.Watch.{Watch};
ghost use Rattle.propagation_trail.specs.Trails.{TrailState};
ghost use Rattle.watched_propagation.specs.Watching.{clause_in};
ghost use Rattle.watched_propagation.specs.Propagations.{AreSmall, IsLearnable, IsPropagator, IsWatchable};

use crate::arena::Arena;
use crate::attach::watch_both;
use crate::levels::{assume, go_back, is_open};
use crate::visit::find_other;
use crate::watch::{Pair, WatchList};
use clause_core::Lit;
use propagation_trail::{ClauseRef, Code, Trail, low, negated};
use std::alloc::AllocError;

/// Adds a clause that watches nothing; its place.
fn store(
    arena: &mut Arena,
    pairs: &mut Vec<Pair>,
    loose: &mut Vec<usize>,
    literals: &[Lit],
) -> Result<usize, AllocError>
    requires { AreSmall literals.now }
    ensures kept { (lists : List (List Watch)) (t : TrailState)
        → IsPropagator arena.old pairs.old.items lists t loose.old.items
        → IsPropagator arena.new pairs.new.items lists t loose.new.items }
    ensures clauses { OnOk result (arena.new ≡ arena.old ++ map rank literals.now ∷ []) }
    ensures paired { IfOk result (λ k. length arena.old ≤ length pairs.old.items → k < length pairs.new.items) }
    ensures last { IfOk result (λ k. (front : List ℕ) × (loose.new.items ≡ front ++ k ∷ [])) }
{
    let place = arena.len();
    loose.push(place)?;
    pairs.push(Pair::NONE)?;
    arena.push(literals)?;
    Ok(place)
}

/// Lets the last clause watch two of its literals, where they are two.
fn watch_last(
    arena: &Arena,
    pairs: &mut Vec<Pair>,
    lists: &mut [WatchList],
    trail: &Trail,
    loose: &mut Vec<usize>,
    place: usize,
    one: u32,
    other: u32,
) -> Result<(), AllocError>
    requires propagator { IsPropagator arena.now pairs.old.items lists.old trail.now loose.old.items }
    requires paired { place < length pairs.old.items }
    requires last { (front : List ℕ) × (loose.old.items ≡ front ++ place ∷ []) }
    requires one { IsWatchable trail.now one one }
    requires other { IsWatchable trail.now one other }
    ensures { IsPropagator arena.now pairs.new.items lists.new trail.now loose.new.items }
{
    if watch_both(arena, pairs.as_mut_slice(), lists, trail, place, one, other)? {
        let _ = loose.pop();
    }
    Ok(())
}

/// Makes the only literal of the last clause that is not false true, where no decision stands: so the clause stays true, and
/// need not be looked at again.
fn assert_last(
    arena: &Arena,
    trail: &mut Trail,
    loose: &mut Vec<usize>,
    place: usize,
    one: u32,
) -> Result<(), AllocError>
    requires inside { Contains (clause_in arena.now place) one }
    requires last { (front : List ℕ) × (loose.old.items ≡ front ++ place ∷ []) }
    requires bottom { trail.old.starts ≡ [] }
    ensures kept { (pairs : List Pair) (lists : List (List Watch))
        → IsPropagator arena.now pairs lists trail.old loose.old.items
        → IsPropagator arena.now pairs lists trail.new loose.new.items }
    ensures size { length trail.new.values ≡ length trail.old.values }
{
    let _ = assume(trail, one, ClauseRef::at(low(place)))?;
    if trail.is_true(one) {
        let _ = loose.pop();
    }
    Ok(())
}

/// Adds a clause where all decisions are taken back; its place where all its literals are false.
pub(crate) fn add_given(
    arena: &mut Arena,
    pairs: &mut Vec<Pair>,
    lists: &mut [WatchList],
    trail: &mut Trail,
    loose: &mut Vec<usize>,
    literals: &[Lit],
) -> Result<Option<usize>, AllocError>
    requires propagator { IsPropagator arena.old pairs.old.items lists.old trail.old loose.old.items }
    requires small { AreSmall literals.now }
    ensures propagator { IsPropagator arena.new pairs.new.items lists.new trail.new loose.new.items }
    ensures clauses { OnOk result (arena.new ≡ arena.old ++ map rank literals.now ∷ []) }
    ensures size { length trail.new.values ≡ length trail.old.values }
{
    let place = store(arena, pairs, loose, literals)?;
    go_back(trail, 0);
    let codes = arena.codes(place);
    let limit = lists.len();
    let Some(one) = find_other(codes, trail, Code::NONE.number, limit) else {
        return Ok(Some(place));
    };
    if let Some(other) = find_other(codes, trail, one, limit) {
        watch_last(arena, pairs, lists, trail, loose, place, one, other)?;
        return Ok(None);
    }
    assert_last(arena, trail, loose, place, one)?;
    Ok(None)
}

/// Whether a clause may watch these two at the present level, once the first is made true.
fn may_learn(trail: &Trail, one: u32, other: u32) -> bool
    ensures { IsTrue result → IsLearnable trail.now one other }
{
    is_open(trail, one) && trail.is_of_last_level(negated(other))
}

/// Adds a learned clause of two literals or more, and makes one of them true.
fn add_watched(
    arena: &mut Arena,
    pairs: &mut Vec<Pair>,
    lists: &mut [WatchList],
    trail: &mut Trail,
    loose: &mut Vec<usize>,
    literals: &[Lit],
    one: u32,
    other: u32,
) -> Result<(), AllocError>
    requires propagator { IsPropagator arena.old pairs.old.items lists.old trail.old loose.old.items }
    requires small { AreSmall literals.now }
    requires learnable { IsLearnable trail.old one other }
    ensures propagator { IsPropagator arena.new pairs.new.items lists.new trail.new loose.new.items }
    ensures clauses { OnOk result (arena.new ≡ arena.old ++ map rank literals.now ∷ []) }
    ensures size { length trail.new.values ≡ length trail.old.values }
{
    let place = store(arena, pairs, loose, literals)?;
    let was_open = assume(trail, one, ClauseRef::at(low(place)))?;
    if !was_open {
        return Ok(());
    }
    watch_last(arena, pairs, lists, trail, loose, place, one, other)
}

/// Adds a learned clause.
pub(crate) fn add_learned(
    arena: &mut Arena,
    pairs: &mut Vec<Pair>,
    lists: &mut [WatchList],
    trail: &mut Trail,
    loose: &mut Vec<usize>,
    literals: &[Lit],
    one: u32,
    other: u32,
) -> Result<(), AllocError>
    requires propagator { IsPropagator arena.old pairs.old.items lists.old trail.old loose.old.items }
    requires small { AreSmall literals.now }
    ensures propagator { IsPropagator arena.new pairs.new.items lists.new trail.new loose.new.items }
    ensures clauses { OnOk result (arena.new ≡ arena.old ++ map rank literals.now ∷ []) }
    ensures size { length trail.new.values ≡ length trail.old.values }
{
    if literals.len() >= 2 && may_learn(trail, one, other) {
        return add_watched(arena, pairs, lists, trail, loose, literals, one, other);
    }
    let _ = add_given(arena, pairs, lists, trail, loose, literals)?;
    Ok(())
}
