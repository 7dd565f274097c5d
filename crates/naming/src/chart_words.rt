// The words of a chart's associations.
ghost use Rattle.std.specs.Prelude.{◌≡◌, map, option_map};
ghost use Rattle.source_tree.specs.SyntaxView.{name_view, brackets_view, step_action_view};
ghost use Rattle.naming.specs.ChartWords.{qualifier_in, qualifier_named, word_of, qualifier_by, qualifier_of, is_storing};

use program_tree::Qualifier;
use source_tree::{Brackets, Name, StepAction};

// The words, and what each says of an association.
const QUALIFIERS: [(&str, Qualifier); 6] = [
    ("N", Qualifier::NonStored),
    ("S", Qualifier::Set),
    ("R", Qualifier::Reset),
    ("P", Qualifier::Pulse),
    ("P1", Qualifier::Pulse),
    ("P0", Qualifier::FallingPulse),
];

// What a word says, among these.
fn qualifier_in(qualifiers: &[(&str, Qualifier)], text: &[u8]) -> Option<Qualifier>
    ensures { result ≡ qualifier_in (map (λ e. (e.0.now, e.1)) qualifiers.now) text.now }
{
    for (word, qualifier) in qualifiers {
        if word.as_bytes() == text {
            return Some(*qualifier);
        }
    }
    None
}

/// What a word in an action's parentheses says, where it is a qualifier (IEC 61131-3, table 45).
#[tactic(auto, unfolding(crate::specs::ChartWords::qualifier_named))]
pub fn qualifier(word: &str) -> Option<Qualifier>
    ensures { result ≡ qualifier_named word.now }
{
    qualifier_in(&QUALIFIERS, word.as_bytes())
}

/// The word in an action's parentheses.
pub fn word_of(brackets: &Option<Brackets>) -> Option<&Name>
    ensures { option_map (λ n. name_view n.now) result ≡ word_of (option_map brackets_view brackets.now) }
{
    match brackets {
        Some(brackets) => brackets.word.as_ref(),
        None => None,
    }
}

// What an association's word says, which is N where there is none.
fn qualifier_by(word: Option<&Name>) -> Option<Qualifier>
    ensures { result ≡ qualifier_by (option_map (λ n. name_view n.now) word.entry) }
{
    match word {
        Some(word) => qualifier(word.text.as_str()),
        None => Some(Qualifier::NonStored),
    }
}

/// What an association of a step says of its action.
pub fn qualifier_of(action: &StepAction) -> Option<Qualifier>
    ensures { result ≡ qualifier_of (step_action_view action.now) }
{
    qualifier_by(word_of(&action.brackets))
}

/// Whether a qualifier stores an action.
pub fn is_storing(qualifier: Option<Qualifier>) -> bool
    ensures { result ≡ is_storing qualifier }
{
    matches!(qualifier, Some(Qualifier::Set | Qualifier::Reset))
}
