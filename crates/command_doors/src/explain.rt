// The door `explain`: what the command explain puts for OLD, NEW, a relation and a finding, and the status that it ends with.
use crate::check::run_judging;
use case_files::{Case, CaseFault, Mismatch, Word};
use std::alloc::Global;

/// Runs a case of this door.
pub fn run_explain(
    alloc: Global,
    head: &Case,
    case: &Case,
    found: &mut Vec<Mismatch>,
) -> Result<(), CaseFault> {
    run_judging(alloc, head, case, "explain", Word::Explain, found)
}
