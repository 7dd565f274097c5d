// Unit propagation that notes the clauses which it uses, so that they derive what it comes to.

ghost use Rattle.std.specs.Prelude.{◌≡◌, ◌≢◌, ℕ, ◌<◌, ◌-◌, ◌^◌, [], Some, None, true, false, List, length, replicate, IsOk, IfOk, IfSome, Ok};
ghost use Rattle.clause_core.specs.Steps.{assume_false, VariablesBelow, AllVariablesBelow};
ghost use Rattle.clause_core.specs.Propagation.{Extends, IsClosed, open_count};
ghost use Rattle.clause_core.specs.Freshness.{Unforced};
ghost use Rattle.clause_core.specs.declared.truth.Truth.{Truth};
ghost use Rattle.cdcl_core.specs.Noting.{Leads, Derives};

use clause_core::{
    Clause, Hints, Lit, Pass, Status, Truth, assume_false, clause_status, clear, put_true,
};
use std::alloc::{AllocError, Global};

/// Sets the literal of each unit clause, and notes the clause.
fn propagate_once_noting(
    held: &[Clause],
    values: &mut [Truth],
    hints: &mut Hints,
) -> Result<Pass, AllocError>
    requires held { AllVariablesBelow (length values.old) held.now }
    requires few { length held.now < 2 ^ 32 - 1 }
    ensures closed { result ≡ Ok Pass.Closed → IsClosed held.now values.new }
    ensures fewer { result ≡ Ok Pass.Changed → open_count values.new < open_count values.old }
    ensures grows { Extends values.new values.old }
    ensures below { (rho : List Truth) → Extends rho values.old → Unforced held.now rho → Extends rho values.new }
    ensures leads { (start : List Truth) → Leads held.now start values.old hints.old
        → result ≢ Ok Pass.Conflict → IsOk result → Leads held.now start values.new hints.new }
    ensures derives { (start : List Truth) → Leads held.now start values.old hints.old
        → result ≡ Ok Pass.Conflict → Derives held.now start hints.new }
{
    let mut changed = false;
    for (index, clause) in held.iter().enumerate() {
        match clause_status(values, clause.literals()) {
            Status::Falsified => {
                hints.push(index as u32 + 1)?;
                return Ok(Pass::Conflict);
            }
            Status::Unit(literal) => {
                hints.push(index as u32 + 1)?;
                put_true(values, literal);
                changed = true;
            }
            Status::Neither => {}
        }
    }
    if changed {
        Ok(Pass::Changed)
    } else {
        Ok(Pass::Closed)
    }
}

/// Unit propagation that notes its hints; whether it ends without a conflict.
fn propagate_noting(
    held: &[Clause],
    values: &mut [Truth],
    hints: &mut Hints,
) -> Result<bool, AllocError>
    requires held { AllVariablesBelow (length values.old) held.now }
    requires few { length held.now < 2 ^ 32 - 1 }
    requires none { hints.old ≡ [] }
    ensures closed { result ≡ Ok true → IsClosed held.now values.new }
    ensures grows { Extends values.new values.old }
    ensures below { (rho : List Truth) → Extends rho values.old → Unforced held.now rho → Extends rho values.new }
    ensures derives { result ≡ Ok false → Derives held.now values.old hints.new }
{
    loop {
        match propagate_once_noting(held, values, hints)? {
            Pass::Conflict => {
                return Ok(false);
            }
            Pass::Closed => {
                return Ok(true);
            }
            Pass::Changed => {}
        }
    }
}

/// Propagates from the clause's literals assumed false: the hints of a conflict, or None where there is none.
pub(crate) fn propagate_from(
    alloc: Global,
    held: &[Clause],
    values: &mut [Truth],
    literals: &[Lit],
) -> Result<Option<Hints>, AllocError>
    requires held { AllVariablesBelow (length values.old) held.now }
    requires literals { VariablesBelow (length values.old) literals.now }
    requires few { length held.now < 2 ^ 32 - 1 }
    ensures conflict { IfOk result (λ o. IfSome o (λ hints.
        Derives held.now (assume_false (replicate (length values.old) Truth.Open) literals.now) hints)) }
    ensures closed { result ≡ Ok None → IsClosed held.now values.new }
    ensures grows { Extends values.new (assume_false (replicate (length values.old) Truth.Open) literals.now) }
    ensures below { (rho : List Truth) → Extends rho (assume_false (replicate (length values.old) Truth.Open) literals.now)
        → Unforced held.now rho → Extends rho values.new }
{
    clear(values);
    assume_false(values, literals);
    let mut hints = Hints::new(alloc);
    if propagate_noting(held, values, &mut hints)? {
        Ok(None)
    } else {
        Ok(Some(hints))
    }
}
