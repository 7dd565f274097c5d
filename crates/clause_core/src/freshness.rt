ghost use Rattle.std.specs.Prelude.{◌≡◌, ℕ, ◌<◌, ◌+◌, List, length, IsTrue, ◌↔◌, ◌++◌, ◌∷◌};
ghost use Rattle.clause_core.specs.Clauses.{rises};
ghost use Rattle.clause_core.specs.Steps.{clause_status, IsUnit, VariablesBelow, AllVariablesBelow};
ghost use Rattle.clause_core.specs.Propagation.{IsClosed};
ghost use Rattle.clause_core.specs.Freshness.{IsFresh, ShowsFresh};
ghost use Rattle.clause_core.specs.declared.truth.Truth.{Truth};
ghost use Rattle.clause_core.specs.declared.literal.Lit.{Lit};

use crate::clause::Clause;
use crate::literal::Lit;
use crate::propagation::{all_closed, propagate};
use crate::status::{Status, clause_status};
use crate::truth::{Truth, assume_false, clear, value};

/// Whether the values themselves show that the clause is fresh: it is unit, and nothing held is
/// unit or false.
pub fn shows_fresh(held: &[Clause], values: &[Truth], literals: &[Lit]) -> bool
    requires held { AllVariablesBelow (length values.now) held.now }
    requires literals { VariablesBelow (length values.now) literals.now }
    ensures exact { IsTrue result
        ↔ (IsUnit (clause_status values.now literals.now) × IsClosed held.now values.now) }
    ensures fresh { IsTrue result → IsFresh held.now literals.now }
{
    match clause_status(values, literals) {
        Status::Unit(_) => all_closed(held, values),
        _ => false,
    }
}

/// Whether the clause is unit under the values. It is fresh over what is held where nothing that is held is unit or false.
pub fn is_unit(values: &[Truth], literals: &[Lit]) -> bool
    requires { VariablesBelow (length values.now) literals.now }
    ensures unit { IsTrue result ↔ IsUnit (clause_status values.now literals.now) }
    ensures fresh { (held : List (List Lit)) → IsClosed held values.now → IsTrue result → IsFresh held literals.now }
{
    match clause_status(values, literals) {
        Status::Unit(_) => true,
        _ => false,
    }
}

/// Whether the literal between `front` and `back` shows that the clause is fresh.
fn shows_between(
    variables: u32,
    held: &[Clause],
    values: &mut [Truth],
    front: &[Lit],
    literal: Lit,
    back: &[Lit],
) -> bool
    requires held { AllVariablesBelow (length values.old) held.now }
    requires front { VariablesBelow (length values.old) front.now }
    requires literal { literal.variable < length values.old }
    requires back { VariablesBelow (length values.old) back.now }
    requires clause { IsTrue (rises variables (front.now ++ literal ∷ back.now)) }
    requires size { length values.old ≡ variables + 1 }
    ensures yes { IsTrue result
        → ShowsFresh held.now (front.now ++ literal ∷ back.now) literal values.new }
    ensures no { (rho : List Truth)
        → ShowsFresh held.now (front.now ++ literal ∷ back.now) literal rho → IsTrue result }
{
    clear(values);
    assume_false(values, front);
    assume_false(values, back);
    if propagate(held, values) {
        match value(values, literal) {
            Truth::True => false,
            _ => true,
        }
    } else {
        false
    }
}

/// Whether a clause is fresh over what is held, exactly.
pub fn is_fresh(variables: u32, held: &[Clause], values: &mut [Truth], literals: &[Lit]) -> bool
    requires held { AllVariablesBelow (length values.old) held.now }
    requires literals { IsTrue (rises variables literals.now) }
    requires size { length values.old ≡ variables + 1 }
    ensures exact { IsTrue result ↔ IsFresh held.now literals.now }
    ensures size { length values.new ≡ length values.old }
{
    for i in 0..literals.len() {
        let (front, rest) = literals.split_at(i);
        match rest.split_first() {
            None => {}
            Some((literal, back)) => {
                if shows_between(variables, held, values, front, *literal, back) {
                    return true;
                }
            }
        }
    }
    false
}
