// The words of a relation file's lines, which are names for Structured Text. Each text is in upper case.
ghost use Rattle.std.specs.Prelude.{◌≡◌};
ghost use Rattle.relation_lines.specs.Words as spec;

use crate::line::{Condition, Setting};
use scan_model::Side;

/// What the first word of a line asks for.
#[derive(Clone, Copy)]
pub enum FirstWord {
    Setting(Setting),
    Faults,
    Input,
    Clause(Condition),
}

/// The first word of a line that a text is.
#[tactic(auto, unfolding(crate::specs::Words::first_word_of))]
pub fn first_word_of(text: &str) -> Option<FirstWord>
    ensures { result ≡ spec.first_word_of text.now }
{
    if text == "RELATION" {
        Some(FirstWord::Setting(Setting::Version))
    } else if text == "FAULTS" {
        Some(FirstWord::Faults)
    } else if text == "DEPTH" {
        Some(FirstWord::Setting(Setting::Depth))
    } else if text == "CONFLICTS" {
        Some(FirstWord::Setting(Setting::Conflicts))
    } else if text == "INPUT" {
        Some(FirstWord::Input)
    } else if text == "ENV" {
        Some(FirstWord::Clause(Condition::Environment))
    } else if text == "RELATE" {
        Some(FirstWord::Clause(Condition::Relate))
    } else if text == "INVARIANT" {
        Some(FirstWord::Clause(Condition::Invariant))
    } else {
        None
    }
}

/// Whether the word behind FAULTS says that faults are equal, where it is one of the two.
#[tactic(auto, unfolding(crate::specs::Words::agreement_of))]
pub fn agreement_of(text: &str) -> Option<bool>
    ensures { result ≡ spec.agreement_of text.now }
{
    if text == "EQUAL" {
        Some(true)
    } else if text == "FREE" {
        Some(false)
    } else {
        None
    }
}

/// The program that a text names.
#[tactic(auto, unfolding(crate::specs::Words::side_of))]
pub fn side_of(text: &str) -> Option<Side>
    ensures { result ≡ spec.side_of text.now }
{
    if text == "OLD" {
        Some(Side::Old)
    } else if text == "NEW" {
        Some(Side::New)
    } else {
        None
    }
}
