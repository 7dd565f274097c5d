// The door `suggested`: how the program that suggests lines ends for OLD, NEW and a relation, and the line that it tells.
use case_files::{
    Case, CaseFault, Mismatch, Word, compare, new_program_of, program_of, section_of, text_of,
};
use std::alloc::{AllocError, Global};
use suggest_command::{Effort, Ending, ending_of, ending_without, suggest_for};

fn ending(alloc: Global, old: &[u8], new: &[u8], relation: &[u8]) -> Result<Ending, AllocError> {
    match suggest_for(alloc, old, new, relation, Effort::of_seed(1)) {
        Ok(suggestion) => ending_of(alloc, &suggestion),
        Err(error) => ending_without(alloc, &error),
    }
}

/// Runs a case of this door.
pub fn run_suggest(
    alloc: Global,
    head: &Case,
    case: &Case,
    found: &mut Vec<Mismatch>,
) -> Result<(), CaseFault> {
    let old = program_of(alloc, head, case, Word::Old)?;
    let new = new_program_of(alloc, head, case)?;
    let relation = text_of(alloc, head, case, Word::Relation)?;
    let section = section_of(alloc, head, case, Word::Suggested)?;
    let status = section.argument.as_str();
    let wanted = section.text();
    let expected = format!(in alloc; "status {status}\n{wanted}")?;
    let ending = ending(alloc, &old.bytes, &new.bytes, &relation.bytes)?;
    let (status, line) = (ending.status, ending.line.as_str());
    let got = format!(in alloc; "status {status}\n{line}")?;
    compare(alloc, "the answer", expected.as_str(), got.as_str(), found)?;
    Ok(())
}
