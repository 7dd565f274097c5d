ghost use Rattle.std.specs.Prelude.{◌≡◌, ◌<◌, length};
ghost use Rattle.clause_core.specs.Values.{value};
ghost use Rattle.clause_core.specs.Steps.{clause_status, status_of_one, VariablesBelow, UnitBelow};

use crate::literal::Lit;
use crate::truth::{Truth, value};

/// What a clause is under a partial assignment: false, unit with an open literal, or neither.
#[derive(Clone, Copy)]
pub enum Status {
    /// Each literal is false.
    Falsified,
    /// This literal is open, and each other one is false.
    Unit(Lit),
    /// A literal is true, or two are open.
    Neither,
}

/// Looks at the literals in order, and stops at the second that is not false.
#[inline]
pub fn clause_status(values: &[Truth], literals: &[Lit]) -> Status
    requires { VariablesBelow (length values.now) literals.now }
    ensures status { result ≡ clause_status values.now literals.now }
    ensures unit { UnitBelow (length values.now) result }
{
    let mut found = None;
    for literal in literals {
        if value(values, *literal) != Truth::False {
            if found.is_some() {
                return Status::Neither;
            }
            found = Some(*literal);
        }
    }
    match found {
        None => Status::Falsified,
        Some(literal) => unit_or_neither(values, literal),
    }
}

#[inline]
fn unit_or_neither(values: &[Truth], literal: Lit) -> Status
    requires variable { literal.variable < length values.now }
    ensures status { result ≡ status_of_one (value values.now literal) literal }
    ensures unit { UnitBelow (length values.now) result }
{
    if value(values, literal) == Truth::Open {
        Status::Unit(literal)
    } else {
        Status::Neither
    }
}
