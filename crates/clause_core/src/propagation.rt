ghost use Rattle.std.specs.Prelude.{◌≡◌, ◌≢◌, ℕ, ◌<◌, List, length, IsTrue, ◌↔◌, slice_index_or};
ghost use Rattle.clause_core.specs.Steps.{AllVariablesBelow};
ghost use Rattle.clause_core.specs.Propagation.{Extends, IsClosed, IsImplied, open_count};
ghost use Rattle.clause_core.specs.Freshness.{Unforced};
ghost use Rattle.clause_core.specs.declared.truth.Truth.{Truth};

use crate::clause::Clause;
use crate::status::{Status, clause_status};
use crate::truth::{Truth, put_true};

/// What a pass over the held clauses came to.
#[derive(Clone, Copy)]
pub enum Pass {
    Conflict,
    Changed,
    Closed,
}

/// Whether no held clause is false or unit.
pub fn all_closed(held: &[Clause], values: &[Truth]) -> bool
    requires { AllVariablesBelow (length values.now) held.now }
    ensures { IsTrue result ↔ IsClosed held.now values.now }
{
    for clause in held {
        match clause_status(values, clause.literals()) {
            Status::Neither => {}
            _ => {
                return false;
            }
        }
    }
    true
}

/// Sets the literal of each unit clause.
pub fn propagate_once(held: &[Clause], values: &mut [Truth]) -> Pass
    requires { AllVariablesBelow (length values.old) held.now }
    ensures closed { result ≡ Pass.Closed → IsClosed held.now values.new }
    ensures fewer { result ≡ Pass.Changed → open_count values.new < open_count values.old }
    ensures grows { Extends values.new values.old }
    ensures below { IsImplied held.now values.old values.new }
    ensures conflict { (rho : List Truth) → Extends rho values.old → Unforced held.now rho
        → result ≢ Pass.Conflict }
{
    let mut changed = false;
    for clause in held {
        match clause_status(values, clause.literals()) {
            Status::Falsified => {
                return Pass::Conflict;
            }
            Status::Unit(literal) => {
                put_true(values, literal);
                changed = true;
            }
            Status::Neither => {}
        }
    }
    if changed { Pass::Changed } else { Pass::Closed }
}

/// Unit propagation over all held clauses; whether it ends without a conflict.
pub fn propagate(held: &[Clause], values: &mut [Truth]) -> bool
    requires { AllVariablesBelow (length values.old) held.now }
    ensures closed { IsTrue result → IsClosed held.now values.new }
    ensures grows { Extends values.new values.old }
    ensures below { IsImplied held.now values.old values.new }
    ensures conflict { (rho : List Truth) → Extends rho values.old → Unforced held.now rho
        → IsTrue result }
{
    loop {
        match propagate_once(held, values) {
            Pass::Conflict => {
                return false;
            }
            Pass::Closed => {
                return true;
            }
            Pass::Changed => {}
        }
    }
}
