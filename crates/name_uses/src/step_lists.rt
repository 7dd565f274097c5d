// The steps before and behind transitions.
ghost use Rattle.std.specs.Prelude.{◌≡◌, ◌∷◌, [], OnOk};
ghost use Rattle.source_tree.specs.SyntaxView.{name_view, names_view, steps_view};
ghost use Rattle.naming.specs.Broken.{step_by, listed_by, in_listed_from, in_steps};
ghost use Rattle.pou_scope.specs.NamesView.{file_in, pou_in};
ghost use Rattle.rules.specs.Outcomes.{outcome_of, both};
ghost use Rattle.naming.specs.Scopes.{seen_named};
ghost use Rattle.naming.specs.ScopeView.{seen_if};

use crate::scope::Scope;
use file_scope::{step_twice, unknown_step};
use indexmap::IndexMap;
use naming::Declared;
use pou_scope::{add, has};
use rules::Outcome;
use source_tree::{Name, Steps};
use std::alloc::{AllocError, Global};
use use_numbers::UseNumbers;

// The name of a step, which is that of this variable, or of none.
fn step_by(seen: Option<&Declared<'_>>, name: &Name) -> Outcome
    ensures { result ≡ outcome_of (step_by (seen_if seen.entry) (name_view name.now)) }
{
    match seen {
        None => unknown_step(name),
        Some(seen) => {
            if !seen.whole {
                return Outcome::suppressed();
            }
            if seen.role.is_step() {
                Outcome::ok()
            } else {
                unknown_step(name)
            }
        }
    }
}

// A name of a list, and whether the list has it before. Keeps the number of the step.
fn judged_listed(
    scope: &Scope<'_, '_>,
    numbers: &mut UseNumbers,
    is_met: bool,
    name: &Name,
) -> Outcome
    ensures { let n = name_view name.now in result ≡ outcome_of (listed_by (step_by (seen_named (file_in scope.now.names) (pou_in scope.now.names) n.text) n) is_met n) }
{
    let known = step_by(scope.names.part(numbers, name), name);
    if known.whole && is_met {
        return step_twice(name);
    }
    known
}

// Keeps what the names of a list break behind its first, and the numbers of the steps.
#[tactic(auto, using(rules::proofs::Outcomes::both_on, rules::proofs::Outcomes::both_ok))]
fn walk_others(
    alloc: Global,
    scope: &Scope<'_, '_>,
    first: &Name,
    others: &[Name],
    outcome: &mut Outcome,
    numbers: &mut UseNumbers,
) -> Result<(), AllocError>
    ensures { OnOk result (outcome.new ≡ both outcome.old (outcome_of (in_listed_from (file_in scope.now.names) (pou_in scope.now.names) ((name_view first.now).text ∷ []) (names_view others.now)))) }
{
    let mut met = IndexMap::new(alloc);
    add(&mut met, first)?;
    for name in others {
        let is_met = has(&met, name.text.as_str());
        *outcome = outcome.and(judged_listed(scope, numbers, is_met, name));
        add(&mut met, name)?;
    }
    Ok(())
}

/// Keeps what the steps before or behind a transition break, and the numbers of the steps.
#[tactic(auto, using(rules::proofs::Outcomes::both_on, rules::proofs::Outcomes::both_ok))]
pub fn walk_steps(
    alloc: Global,
    scope: &Scope<'_, '_>,
    steps: &Steps,
    outcome: &mut Outcome,
    numbers: &mut UseNumbers,
) -> Result<(), AllocError>
    ensures { OnOk result (outcome.new ≡ both outcome.old (outcome_of (in_steps (file_in scope.now.names) (pou_in scope.now.names) (steps_view steps.now)))) }
{
    match steps {
        Steps::One(name) => {
            *outcome = outcome.and(judged_listed(scope, numbers, false, name));
            Ok(())
        }
        Steps::Several(_, first, others) => {
            *outcome = outcome.and(judged_listed(scope, numbers, false, first));
            walk_others(alloc, scope, first, others, outcome, numbers)
        }
    }
}
