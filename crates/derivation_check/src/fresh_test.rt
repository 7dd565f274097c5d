// Most fresh clauses are shown to be so in little time: by unit propagation that knows when nothing is left to propagate.

ghost use Rattle.std.specs.Prelude.{◌≡◌, ◌^◌, ◌<◌, length, IsTrue, IfOk};
ghost use Rattle.clause_core.specs.Steps.{VariablesBelow};
ghost use Rattle.clause_core.specs.Freshness.{IsFresh};
ghost use Rattle.derivation_check.specs.Tests.{IsOver};

use clause_core::{Cnf, Lit, Truth, is_unit};
use std::alloc::{AllocError, Global};
use watched_propagation::{Code, Propagator};

/// A propagator over the clauses of a formula.
pub(crate) fn propagator_over(alloc: Global, cnf: &Cnf) -> Result<Propagator, AllocError>
    requires { cnf.now.variables < 2 ^ 31 }
    ensures { IfOk result (IsOver cnf.now) }
{
    let mut propagator = Propagator::new(alloc, cnf.variables())?;
    let clauses = cnf.clauses();
    for clause in clauses {
        propagator.add_given(clause.literals())?;
    }
    Ok(propagator)
}

// Makes a literal true where it has no value, in the level that was begun, or in one that it begins; whether there is a level now.
fn assume(propagator: &mut Propagator, code: Code, has_level: bool) -> Result<bool, AllocError>
    ensures held { propagator.new.held ≡ propagator.old.held }
    ensures size { length propagator.new.values ≡ length propagator.old.values }
{
    if has_level {
        propagator.assume(code)?;
        Ok(true)
    } else {
        propagator.decide(code)
    }
}

// Makes all literals but the one at a place false, where they have no value, and propagates.
fn assume_others(
    propagator: &mut Propagator,
    literals: &[Lit],
    place: usize,
) -> Result<(), AllocError>
    ensures held { propagator.new.held ≡ propagator.old.held }
    ensures size { length propagator.new.values ≡ length propagator.old.values }
{
    let mut has_level = false;
    for (index, literal) in literals.iter().enumerate() {
        if index != place {
            has_level = assume(propagator, Code::of(*literal).negated(), has_level)?;
        }
    }
    propagator.propagate()?;
    Ok(())
}

// Whether the values show that the clause is fresh.
fn is_shown(propagator: &Propagator, literals: &[Lit]) -> bool
    requires { VariablesBelow (length propagator.now.values) literals.now }
    ensures { IsTrue result → IsFresh propagator.now.held literals.now }
{
    propagator.is_closed() && is_unit(propagator.values(), literals)
}

// Whether it is shown by the literal at a place that the clause is fresh.
fn shows_at(propagator: &mut Propagator, literals: &[Lit], place: usize) -> Result<bool, AllocError>
    requires { VariablesBelow (length propagator.old.values) literals.now }
    ensures fresh { IfOk result (λ yes. IsTrue yes → IsFresh propagator.old.held literals.now) }
    ensures held { propagator.new.held ≡ propagator.old.held }
    ensures size { length propagator.new.values ≡ length propagator.old.values }
{
    assume_others(propagator, literals, place)?;
    let is_shown = is_shown(propagator, literals);
    propagator.go_back(0);
    Ok(is_shown)
}

// Begins a level in which these literals are false, and propagates; whether that is so, without a conflict.
fn make_false(propagator: &mut Propagator, literals: &[Lit]) -> Result<bool, AllocError>
    ensures held { propagator.new.held ≡ propagator.old.held }
    ensures size { length propagator.new.values ≡ length propagator.old.values }
{
    let mut has_level = false;
    for literal in literals {
        let code = Code::of(*literal).negated();
        if propagator.value(code) == Truth::False {
            return Ok(false);
        }
        has_level = assume(propagator, code, has_level)?;
    }
    Ok(propagator.propagate()?.is_none())
}

// Whether it is shown by a literal of a part of the clause that it is fresh, where all others are false. Half of the part is made
// false at a time, so that a level serves all literals of the other half.
fn shows_within(
    propagator: &mut Propagator,
    literals: &[Lit],
    part: &[Lit],
) -> Result<bool, AllocError>
    requires { VariablesBelow (length propagator.old.values) literals.now }
    ensures fresh { IfOk result (λ yes. IsTrue yes → IsFresh propagator.old.held literals.now) }
    ensures held { propagator.new.held ≡ propagator.old.held }
    ensures size { length propagator.new.values ≡ length propagator.old.values }
{
    if part.len() <= 1 {
        return Ok(is_shown(propagator, literals));
    }
    let level = propagator.level();
    let (front, back) = part.split_at(part.len() / 2);
    if make_false(propagator, front)? && shows_within(propagator, literals, back)? {
        return Ok(true);
    }
    propagator.go_back(level);
    if make_false(propagator, back)? && shows_within(propagator, literals, front)? {
        return Ok(true);
    }
    propagator.go_back(level);
    Ok(false)
}

/// Whether it is shown that the clause is fresh over what is held, by the literal at a place that is guessed, or by another.
pub(crate) fn shows_fresh(
    propagator: &mut Propagator,
    literals: &[Lit],
    guess: usize,
) -> Result<bool, AllocError>
    requires { VariablesBelow (length propagator.old.values) literals.now }
    ensures fresh { IfOk result (λ yes. IsTrue yes → IsFresh propagator.old.held literals.now) }
    ensures held { propagator.new.held ≡ propagator.old.held }
    ensures size { length propagator.new.values ≡ length propagator.old.values }
{
    propagator.propagate()?;
    if shows_at(propagator, literals, guess)? {
        return Ok(true);
    }
    let is_shown = shows_within(propagator, literals, literals)?;
    propagator.go_back(0);
    Ok(is_shown)
}
