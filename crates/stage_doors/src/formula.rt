// The door `formula`: what the deciders find out of a formula, and what the checker answers to the steps of a derivation behind it.
use crate::checked::step_lines;
use crate::decided::{Answer, Way, decide, way_of};
use crate::dimacs::{read_derivation, read_formula};
use case_files::{
    Case, CaseFault, Mismatch, Section, Word, compare, expected_text_of, malformed, section_of,
};
use clause_core::Decided;
use std::alloc::{AllocError, Global};

/// Runs a case of this door.
pub fn run_formula(
    alloc: Global,
    head: &Case,
    case: &Case,
    found: &mut Vec<Mismatch>,
) -> Result<(), CaseFault> {
    let formula = expected_text_of(alloc, section_of(alloc, head, case, Word::Formula)?)?;
    for section in &case.sections {
        if section.word == Word::Decided {
            compare_decided(alloc, formula.as_str(), section, found)?;
        }
    }
    if let Some(section) = case.section(Word::Checked) {
        let expected = expected_text_of(alloc, section)?;
        let lines = step_lines(alloc, read_derivation(alloc, formula.as_str())?)?;
        let got = lines.as_str().trim_end();
        compare(alloc, "the steps", expected.as_str(), got, found)?;
    }
    Ok(())
}

fn compare_decided(
    alloc: Global,
    formula: &str,
    section: &Section,
    found: &mut Vec<Mismatch>,
) -> Result<(), CaseFault> {
    let argument = section.argument.as_str();
    let Some((way, limit)) = asked_of(argument) else {
        return Err(malformed(alloc, "no decider is asked so: ", argument));
    };
    let expected = expected_text_of(alloc, section)?;
    let mut cnf = read_formula(alloc, formula)?;
    let got = match decide(alloc, way, &mut cnf, limit)? {
        Some(answer) => answer_line(alloc, &answer)?,
        None => String::from_str(alloc, "too large")?,
    };
    compare(alloc, argument, expected.as_str(), got.as_str(), found)?;
    Ok(())
}

// The decider, and how many clauses it may derive.
fn asked_of(argument: &str) -> Option<(Way, u32)> {
    let (word, limit) = argument.split_once(' ')?;
    let way = way_of(word)?;
    let limit = limit.parse::<u32>().ok()?;
    Some((way, limit))
}

fn answer_line(alloc: Global, answer: &Answer) -> Result<String, AllocError> {
    let decided = match &answer.decided {
        Decided::Found(_) => "satisfiable",
        Decided::Refuted(_) => "unsatisfiable",
        Decided::Spent(_) => "spent",
    };
    let refused = answer.refused;
    format!(in alloc; "{decided}, {refused} proposals refused")
}
