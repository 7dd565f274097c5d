// The door `words`: command lines, a line each with bars between its words, on a shelf without files, and what is put for each of them.
use crate::answers::expected_of_case;
use crate::files::{compare_ended, run_program};
use case_files::{Case, CaseFault, Mismatch, Word, expected_text_of, section_of};
use outside::MemShelf;
use std::alloc::{AllocError, Global};

/// Runs a case of this door.
pub fn run_words(
    alloc: Global,
    head: &Case,
    case: &Case,
    found: &mut Vec<Mismatch>,
) -> Result<(), CaseFault> {
    let section = section_of(alloc, head, case, Word::Words)?;
    let text = expected_text_of(alloc, section)?;
    let expected = expected_of_case(alloc, head, case, Word::Answer, &[])?;
    for line in text.lines() {
        compare_line(alloc, line, &expected, found)?;
    }
    Ok(())
}

fn compare_line(
    alloc: Global,
    line: &str,
    expected: &[u8],
    found: &mut Vec<Mismatch>,
) -> Result<(), AllocError> {
    let mut words = Vec::new(alloc);
    for word in line.split('|') {
        words.push(word)?;
    }
    let mut shelf = MemShelf::new(alloc, Vec::new(alloc));
    let ended = run_program(alloc, &words, &mut shelf, Vec::new(alloc))?;
    compare_ended(alloc, line, expected, &ended, found)
}
