// The door `replay`: what the command replay puts for OLD, NEW, a relation and a trace, and the status that it ends with.
use crate::answers::expected_of_case;
use crate::failing::compare_failing;
use crate::files::{Run, TextFile, compare_run, compared_files};
use case_files::{Case, CaseFault, Mismatch, Word, text_of};
use std::alloc::Global;

/// Runs a case of this door.
pub fn run_replay(
    alloc: Global,
    head: &Case,
    case: &Case,
    found: &mut Vec<Mismatch>,
) -> Result<(), CaseFault> {
    let mut files = compared_files(alloc, head, case)?;
    files.push(TextFile {
        name: "trace",
        source: "TRACE",
        text: text_of(alloc, head, case, Word::Trace)?,
    })?;
    let expected = expected_of_case(alloc, head, case, Word::Answer, &files)?;
    let reading = Run {
        words: &["regver", "replay", "old", "new", "relation", "trace"],
        files: &files,
        saved: &[],
    };
    compare_run(alloc, &reading, &expected, found)?;
    compare_failing(alloc, case, &reading, found)
}
