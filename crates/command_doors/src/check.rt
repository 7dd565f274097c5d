// The door `check`: what the command check puts for OLD, NEW, a relation and a finding, and the status that it ends with.
use crate::answers::expected_of_case;
use crate::failing::compare_failing;
use crate::files::{Run, TextFile, compare_run, compared_files};
use case_files::{Case, CaseFault, Marked, Mismatch, Word, expected_of, section_of};
use std::alloc::Global;

/// Runs a case of this door.
pub fn run_check(
    alloc: Global,
    head: &Case,
    case: &Case,
    found: &mut Vec<Mismatch>,
) -> Result<(), CaseFault> {
    run_judging(alloc, head, case, "check", Word::Finding, found)
}

/// Runs a case of a command that judges a finding, which stands in a section of that word.
pub(crate) fn run_judging(
    alloc: Global,
    head: &Case,
    case: &Case,
    command: &str,
    word: Word,
    found: &mut Vec<Mismatch>,
) -> Result<(), CaseFault> {
    let mut files = compared_files(alloc, head, case)?;
    files.push(TextFile {
        name: "finding",
        source: "FINDING",
        text: finding_of(alloc, head, case, word)?,
    })?;
    let expected = expected_of_case(alloc, head, case, Word::Answer, &files)?;
    let reading = Run {
        words: &["regver", command, "old", "new", "relation", "finding"],
        files: &files,
        saved: &[],
    };
    compare_run(alloc, &reading, &expected, found)?;
    compare_failing(alloc, case, &reading, found)
}

// The finding, with a line break behind its last line, unless the case leaves it out.
fn finding_of(alloc: Global, head: &Case, case: &Case, word: Word) -> Result<Marked, CaseFault> {
    let section = section_of(alloc, head, case, word)?;
    let mut finding = expected_of(alloc, section)?;
    if section.argument.is_empty() && !finding.bytes.is_empty() {
        finding.bytes.push(b'\n')?;
    }
    Ok(finding)
}
