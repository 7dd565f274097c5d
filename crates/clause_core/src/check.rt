ghost use Rattle.std.specs.Prelude.{◌≡◌, ℕ, Some, None, length, replicate, IfSome, IfNone};
ghost use Rattle.clause_core.specs.Steps.{clause_at, follow_hints, assume_false, VariablesBelow, AllVariablesBelow};
ghost use Rattle.clause_core.specs.Undoing.{after_hints, reopened_at};

use crate::clause::Clause;
use crate::literal::Lit;
use crate::status::{Status, clause_status};
use crate::truth::{Truth, assume_false, put_true, reopen};

/// What the hints of a step come to.
#[derive(Clone, Copy)]
pub enum Outcome {
    /// A hint is a false clause.
    Accepted,
    /// No clause of that number is held.
    UnknownHint(u32),
    /// The clause of that number is neither false nor unit.
    NotUnit(u32),
    /// The hints are used up.
    NoConflict,
}

/// The clause of that number, from 1.
#[inline]
pub fn clause_at(held: &[Clause], number: u32) -> Option<&Clause>
    ensures none { IfNone result (clause_at held.now number ≡ None) }
    ensures some { IfSome result (λ c. clause_at held.now number ≡ Some c.now) }
{
    if number == 0 {
        None
    } else {
        held.get(number as usize - 1)
    }
}

/// Looks at the hints in order, as in the RUP check of a clause with its antecedents.
pub fn follow_hints(held: &[Clause], values: &mut [Truth], hints: &[u32]) -> Outcome
    requires { AllVariablesBelow (length values.old) held.now }
    ensures outcome { result ≡ follow_hints held.now values.old hints.now }
    ensures after { values.new ≡ after_hints held.now values.old hints.now }
{
    for number in hints {
        match clause_at(held, *number) {
            None => {
                return Outcome::UnknownHint(*number);
            }
            Some(clause) => match clause_status(values, clause.literals()) {
                Status::Falsified => {
                    return Outcome::Accepted;
                }
                Status::Unit(literal) => {
                    put_true(values, literal);
                }
                Status::Neither => {
                    return Outcome::NotUnit(*number);
                }
            },
        }
    }
    Outcome::NoConflict
}

/// Opens the variables of the clauses that the hints name.
fn reopen_hints(held: &[Clause], values: &mut [Truth], hints: &[u32])
    requires { AllVariablesBelow (length values.old) held.now }
    ensures { values.new ≡ reopened_at held.now values.old hints.now }
{
    for number in hints {
        match clause_at(held, *number) {
            None => {}
            Some(clause) => reopen(values, clause.literals()),
        }
    }
}

/// The outcome of a step over held clauses. The values are all open, before and after.
///
/// It takes time in proportion to the literals of the step and of the clauses that its hints name.
pub fn check_step(held: &[Clause], values: &mut [Truth], clause: &[Lit], hints: &[u32]) -> Outcome
    requires held { AllVariablesBelow (length values.old) held.now }
    requires clause { VariablesBelow (length values.old) clause.now }
    requires open { values.old ≡ replicate (length values.old) Truth.Open }
    ensures outcome { result
        ≡ follow_hints held.now (assume_false values.old clause.now) hints.now }
    ensures same { values.new ≡ values.old }
{
    assume_false(values, clause);
    let outcome = follow_hints(held, values, hints);
    reopen_hints(held, values, hints);
    reopen(values, clause);
    outcome
}
