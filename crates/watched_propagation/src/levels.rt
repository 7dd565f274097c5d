// What may be done with the trail at any time.

ghost use Rattle.std.specs.Prelude.{◌≡◌, ◌<◌, ◌*◌, [], length, Contains, IsTrue, IfOk};
ghost use Rattle.clause_core.specs.declared.truth.Truth.{Truth};
ghost use Rattle.propagation_trail.specs.Codes.{negated, truth};
ghost use Rattle.propagation_trail.specs.Trails.{Grown, assigned};
ghost use Rattle.watched_propagation.specs.Watching.{KeepsLasting, KeepsWatching};

use clause_core::Truth;
use propagation_trail::{ClauseRef, Trail};
use std::alloc::AllocError;

/// Takes back the decisions above a level, if there are some.
pub(crate) fn go_back(trail: &mut Trail, level: usize)
    ensures kept { KeepsWatching trail.old trail.new }
    ensures lasting { KeepsLasting trail.old trail.new }
    ensures size { length trail.new.values ≡ length trail.old.values }
    ensures none { level ≡ 0 → trail.new.starts ≡ [] }
{
    if level < trail.level() {
        trail.go_back(level);
    }
}

/// Whether a literal is one of the variables' and has no value.
#[inline(always)]
pub(crate) fn is_open(trail: &Trail, code: u32) -> bool
    ensures within { IsTrue result → code < 2 * length trail.now.values }
    ensures open { IsTrue result → truth trail.now.values code ≡ Truth.Open }
    ensures free { IsTrue result → Contains trail.now.literals (negated code) → ⊥ }
{
    ((code / 2) as usize) < trail.values().len() && trail.is_open(code)
}

/// Makes a literal true, where it has no value; whether it had none.
#[inline(always)]
pub(crate) fn assume(trail: &mut Trail, code: u32, reason: ClauseRef) -> Result<bool, AllocError>
    ensures kept { KeepsWatching trail.old trail.new }
    ensures lasting { KeepsLasting trail.old trail.new }
    ensures grown { Grown trail.old trail.new }
    ensures size { length trail.new.values ≡ length trail.old.values }
    ensures assigned { IfOk result (λ b. IsTrue b → trail.new ≡ assigned trail.old code) }
{
    if !is_open(trail, code) {
        return Ok(false);
    }
    trail.assign(code, reason)?;
    Ok(true)
}

/// Begins a level by making a literal true, where it has no value and all was propagated; whether it did.
pub(crate) fn decide(trail: &mut Trail, code: u32) -> Result<bool, AllocError>
    ensures kept { KeepsWatching trail.old trail.new }
    ensures lasting { KeepsLasting trail.old trail.new }
    ensures size { length trail.new.values ≡ length trail.old.values }
{
    if !trail.is_propagated() || !is_open(trail, code) {
        return Ok(false);
    }
    trail.begin_level()?;
    assume(trail, code, ClauseRef::NONE)
}
