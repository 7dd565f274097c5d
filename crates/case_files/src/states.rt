// The states before and behind a scan that a case states, and what is compared with them.
use crate::case_file::{Case, Section};
use crate::report::{CaseFault, Mismatch, compare, malformed};
use crate::section::Word;
use crate::texts::{expected_text_of, numbers_of};
use plc_types::Value;
use std::alloc::{AllocError, Global};

/// A state before a scan, and the one that must be behind it.
#[derive(Drop)]
pub struct StatePair {
    pub before: Vec<Value>,
    pub after: Vec<Value>,
}

/// The pairs of states of a case, in which each state before a scan stands in front of the one behind it.
pub fn state_pairs(alloc: Global, case: &Case) -> Result<Vec<StatePair>, CaseFault> {
    let mut pairs = Vec::new(alloc);
    let mut before: Option<&Section> = None;
    for section in &case.sections {
        match (section.word, before) {
            (Word::Before, None) => before = Some(section),
            (Word::After, Some(state)) => {
                pairs.push(StatePair {
                    before: state_of(alloc, state)?,
                    after: state_of(alloc, section)?,
                })?;
                before = None;
            }
            (Word::Before | Word::After, _) => {
                return Err(malformed(
                    alloc,
                    "states before and after a scan do not take turns",
                    "",
                ));
            }
            _ => {}
        }
    }
    match before {
        None => Ok(pairs),
        Some(_) => Err(malformed(alloc, "the last state before a scan has none behind it", "")),
    }
}

// The state of a section.
fn state_of(alloc: Global, section: &Section) -> Result<Vec<Value>, CaseFault> {
    let text = expected_text_of(alloc, section)?;
    numbers_of(alloc, text.as_str())
}

/// Adds a mismatch where two states differ.
pub fn compare_states(
    alloc: Global,
    what: &str,
    expected: &[Value],
    got: &[Value],
    found: &mut Vec<Mismatch>,
) -> Result<(), AllocError> {
    let expected = state_text(alloc, expected)?;
    let got = state_text(alloc, got)?;
    compare(alloc, what, expected.as_str(), got.as_str(), found)
}

fn state_text(alloc: Global, state: &[Value]) -> Result<String, AllocError> {
    let mut text = String::new(alloc);
    for (place, value) in state.iter().enumerate() {
        if place > 0 {
            text.push_str(" ")?;
        }
        text.push_str(format!(in alloc; "{value}")?.as_str())?;
    }
    Ok(text)
}
