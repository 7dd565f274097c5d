// The tests that a proposal passes before it is taken.

ghost use Rattle.std.specs.Prelude.{◌≡◌, ◌≢◌, ℕ, ◌<◌, ◌≤◌, ◌+◌, ◌-◌, ◌^◌, [], true, length, IsTrue, slice_index_or};
ghost use Rattle.std.specs.List.{list_all};
ghost use Rattle.clause_core.specs.Clauses.{rises, is_within};
ghost use Rattle.clause_core.specs.Satisfaction.{formula_true};
ghost use Rattle.clause_core.specs.Propagation.{IsClosed};
ghost use Rattle.clause_core.specs.Freshness.{IsFresh};
ghost use Rattle.clause_core.specs.Logs.{IsGoodStep};
ghost use Rattle.clause_core.specs.declared.truth.Truth.TheVariants.{Open};
ghost use Rattle.clause_core.specs.Steps.{AllVariablesBelow};
ghost use Rattle.cdcl_core.specs.Next.{assignment};
ghost use Rattle.cdcl_core.specs.Noting.{Derives};

use clause_core::{
    Clause, Outcome, Step, Truth, all_closed, assume_false, clear, follow_hints, is_rising, is_unit,
};

/// Whether no variable is open.
fn none_open(variables: u32, values: &[Truth]) -> bool
    requires size { length values.now ≡ variables + 1 }
    requires small { variables < 2 ^ 32 - 1 }
    ensures { IsTrue result → (k : ℕ) → 0 < k → k ≤ variables → slice_index_or values.now k Open ≢ Open }
{
    for variable in 1..variables + 1 {
        match values[variable as usize] {
            Truth::Open => {
                return false;
            }
            _ => {}
        }
    }
    true
}

/// Whether the values satisfy all that is held.
fn satisfies(variables: u32, held: &[Clause], values: &[Truth]) -> bool
    requires held { IsTrue (list_all (is_within variables) held.now) }
    requires size { length values.now ≡ variables + 1 }
    requires small { variables < 2 ^ 32 - 1 }
    ensures { IsTrue result → formula_true (assignment values.now) held.now ≡ true }
{
    none_open(variables, values) && all_closed(held, values)
}

/// Whether the values that were found satisfy all that is held; if so they are copied.
pub(crate) fn is_solution(
    variables: u32,
    held: &[Clause],
    values: &mut [Truth],
    found: &[Truth],
) -> bool
    requires held { IsTrue (list_all (is_within variables) held.now) }
    requires size { length values.old ≡ variables + 1 }
    requires small { variables < 2 ^ 32 - 1 }
    ensures { IsTrue result → formula_true (assignment values.new) held.now ≡ true }
{
    if found.len() != values.len() {
        return false;
    }
    values.copy_from_slice(found);
    satisfies(variables, held, values)
}

/// Whether the hints lead from the values to a false clause, and not before the last of them.
fn last_decides(held: &[Clause], values: &mut [Truth], hints: &[u32]) -> bool
    requires { AllVariablesBelow (length values.old) held.now }
    ensures { IsTrue result → Derives held.now values.old hints.now }
{
    match hints.split_last() {
        None => false,
        Some((last, front)) => match follow_hints(held, values, front) {
            Outcome::NoConflict => match follow_hints(held, values, &[*last]) {
                Outcome::Accepted => true,
                _ => false,
            },
            _ => false,
        },
    }
}

/// Whether the hints derive the clause, the last of them deciding. Each hint is followed once.
fn derives(variables: u32, held: &[Clause], values: &mut [Truth], step: &Step) -> bool
    requires held { IsTrue (list_all (is_within variables) held.now) }
    requires size { length values.old ≡ variables + 1 }
    ensures good { IsTrue result → IsGoodStep variables held.now step.now }
{
    let literals = step.clause.literals();
    if !is_rising(variables, literals) {
        return false;
    }
    clear(values);
    assume_false(values, literals);
    last_decides(held, values, step.hints.numbers())
}

/// Whether a step that was proposed may be taken: it is derived, and fresh unless it is empty. The values that are
/// shown may be known to be closed.
pub(crate) fn may_take(
    variables: u32,
    held: &[Clause],
    values: &mut [Truth],
    shown: &[Truth],
    is_closed: bool,
    step: &Step,
) -> bool
    requires held { IsTrue (list_all (is_within variables) held.now) }
    requires size { length values.old ≡ variables + 1 }
    requires closed { IsTrue is_closed → IsClosed held.now shown.now }
    ensures good { IsTrue result → IsGoodStep variables held.now step.now }
    ensures fresh { IsTrue result → step.now.clause ≢ [] → IsFresh held.now step.now.clause }
{
    if shown.len() != variables as usize + 1 {
        return false;
    }
    if !derives(variables, held, values, step) {
        return false;
    }
    let literals = step.clause.literals();
    if literals.is_empty() {
        return true;
    }
    is_closed && is_unit(shown, literals)
}
