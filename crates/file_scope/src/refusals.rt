// Judgements of rules on names.
ghost use Rattle.std.specs.Prelude.{◌≡◌};
ghost use Rattle.source_tree.specs.SyntaxView.{name_view, names_view};
ghost use Rattle.rules.specs.declared.rule.Rule.TheVariants.{UnknownStep, UnknownAction, StepTwice, UnknownQualifier};
ghost use Rattle.naming.specs.Broken.{twice, unknown, circular, misused, too_deep};
ghost use Rattle.rules.specs.Judgements.{breaks};
ghost use Rattle.rules.specs.Outcomes.{outcome_of};

use rules::{Outcome, Rule};
use source_tree::Name;

/// N1 at a name.
pub fn twice(name: &Name) -> Outcome
    ensures { result ≡ outcome_of (twice (name_view name.now)) }
{
    Outcome::breaks(Rule::DeclaredTwice, name.at)
}

/// N2 at a name.
pub fn unknown(name: &Name) -> Outcome
    ensures { result ≡ outcome_of (unknown (name_view name.now)) }
{
    Outcome::breaks(Rule::UnknownName, name.at)
}

/// N3 at a name.
pub fn circular(name: &Name) -> Outcome
    ensures { result ≡ outcome_of (circular (name_view name.now)) }
{
    Outcome::breaks(Rule::InTermsOfItself, name.at)
}

/// N4 at a name.
pub fn misused(name: &Name) -> Outcome
    ensures { result ≡ outcome_of (misused (name_view name.now)) }
{
    Outcome::breaks(Rule::WrongUse, name.at)
}

/// N4 at the first name behind a variable or a value that has no members.
pub fn too_deep(members: &[Name]) -> Outcome
    ensures { result ≡ outcome_of (too_deep (names_view members.now)) }
{
    match members.first() {
        Some(name) => misused(name),
        None => Outcome::ok(),
    }
}

/// C2 at a name.
pub fn unknown_step(name: &Name) -> Outcome
    ensures { result ≡ outcome_of (breaks UnknownStep (name_view name.now).at) }
{
    Outcome::breaks(Rule::UnknownStep, name.at)
}

/// C3 at a name.
pub fn unknown_action(name: &Name) -> Outcome
    ensures { result ≡ outcome_of (breaks UnknownAction (name_view name.now).at) }
{
    Outcome::breaks(Rule::UnknownAction, name.at)
}

/// C4 at a name.
pub fn step_twice(name: &Name) -> Outcome
    ensures { result ≡ outcome_of (breaks StepTwice (name_view name.now).at) }
{
    Outcome::breaks(Rule::StepTwice, name.at)
}

/// C5 at a word.
pub fn unknown_qualifier(word: &Name) -> Outcome
    ensures { result ≡ outcome_of (breaks UnknownQualifier (name_view word.now).at) }
{
    Outcome::breaks(Rule::UnknownQualifier, word.at)
}
