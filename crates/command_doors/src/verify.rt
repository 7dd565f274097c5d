// The door `verify`: what the command verify puts for OLD, NEW and a relation, the status that it ends with, and that the finding which
// it saves is judged valid with the same verdict.
use crate::answers::expected_of_case;
use crate::failing::compare_failing;
use crate::files::{Run, compare_ended, compare_files, compared_files, run_program, shelf_of};
use crate::judged::compare_judged;
use crate::query_counts::compare_verify_queries;
use case_files::{Case, CaseFault, Mismatch, Word};
use std::alloc::Global;

/// Runs a case of this door.
pub fn run_verify(
    alloc: Global,
    head: &Case,
    case: &Case,
    found: &mut Vec<Mismatch>,
) -> Result<(), CaseFault> {
    let files = compared_files(alloc, head, case)?;
    let expected = expected_of_case(alloc, head, case, Word::Verdict, &files)?;
    let tried = Run {
        words: &["regver", "verify", "old", "new", "relation", "finding"],
        files: &files,
        saved: &["finding"],
    };
    let mut shelf = shelf_of(alloc, &files)?;
    let ended = run_program(alloc, tried.words, &mut shelf, Vec::new(alloc))?;
    compare_ended(alloc, "status and output", &expected, &ended, found)?;
    compare_files(alloc, &files, &shelf, found)?;
    let names = ["old", "new", "relation", "finding"];
    compare_judged(alloc, names, &ended, &ended.lines, &mut shelf, found)?;
    compare_verify_queries(alloc, case, &files, found)?;
    compare_failing(alloc, case, &tried, found)
}
