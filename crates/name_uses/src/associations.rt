// The actions that a step names, and the words behind them.
ghost use Rattle.std.specs.Prelude.{◌≡◌, option_map};
ghost use Rattle.source_tree.specs.SyntaxView.{name_view, step_action_view, step_actions_view};
ghost use Rattle.naming.specs.Broken.{action_by, in_word, in_association, in_associations};
ghost use Rattle.naming.specs.ScopeView.{seen_if};
ghost use Rattle.pou_scope.specs.NamesView.{file_in, pou_in};
ghost use Rattle.rules.specs.Outcomes.{outcome_of, both};

use crate::scope::Scope;
use file_scope::{unknown_action, unknown_qualifier};
use naming::{Declared, qualifier, word_of};
use rules::Outcome;
use source_tree::{Name, StepAction};
use use_numbers::UseNumbers;

// The name of an action, which is that of this variable, or of none.
fn action_by(seen: Option<&Declared<'_>>, name: &Name) -> Outcome
    ensures { result ≡ outcome_of (action_by (seen_if seen.entry) (name_view name.now)) }
{
    match seen {
        None => unknown_action(name),
        Some(seen) => {
            if !seen.whole {
                return Outcome::suppressed();
            }
            if seen.role.is_action() {
                Outcome::ok()
            } else {
                unknown_action(name)
            }
        }
    }
}

// The word behind an action, where there is one.
fn judged_word(word: Option<&Name>) -> Outcome
    ensures { result ≡ outcome_of (in_word (option_map (λ n. name_view n.now) word.entry)) }
{
    match word {
        Some(word) => {
            if qualifier(word.text.as_str()).is_some() {
                Outcome::ok()
            } else {
                unknown_qualifier(word)
            }
        }
        None => Outcome::ok(),
    }
}

// An action that a step names, and its word. Keeps the number of the action.
#[tactic(auto, using(rules::proofs::Outcomes::outcome_and))]
fn judged_association(
    scope: &Scope<'_, '_>,
    numbers: &mut UseNumbers,
    action: &StepAction,
) -> Outcome
    ensures { result ≡ outcome_of (in_association (file_in scope.now.names) (pou_in scope.now.names) (step_action_view action.now)) }
{
    let known = action_by(scope.names.part(numbers, &action.action), &action.action);
    known.and(judged_word(word_of(&action.brackets)))
}

/// Keeps what the actions break that a step names, and the numbers of the actions.
#[tactic(auto, using(rules::proofs::Outcomes::both_on, rules::proofs::Outcomes::both_ok))]
pub fn walk_associations(
    scope: &Scope<'_, '_>,
    actions: &[StepAction],
    outcome: &mut Outcome,
    numbers: &mut UseNumbers,
)
    ensures { outcome.new ≡ both outcome.old (outcome_of (in_associations (file_in scope.now.names) (pou_in scope.now.names) (step_actions_view actions.now))) }
{
    for action in actions {
        *outcome = outcome.and(judged_association(scope, numbers, action));
    }
}
