// Findings that were saved: `check` judges them valid.
use crate::answers::answer;
use crate::files::{Ended, compare_ended, run_program};
use case_files::{Mismatch, compare_bytes};
use outside::MemShelf;
use regver_top::Status;
use std::alloc::{AllocError, Global};

fn is_verdict(status: Status) -> bool {
    matches!(
        status,
        Status::Related | Status::Different | Status::Open | Status::Vacuous | Status::Spent
    )
}

/// Adds a mismatch where a finding was saved that `check` judges otherwise than valid with the verdict, or one without a verdict. The names
/// are those of OLD, NEW, the relation and the finding, and the verdict is its line and what is put behind it.
pub(crate) fn compare_judged(
    alloc: Global,
    names: [&str; 4],
    ended: &Ended,
    verdict: &[u8],
    shelf: &mut MemShelf,
    found: &mut Vec<Mismatch>,
) -> Result<(), AllocError> {
    let [old, new, relation, finding] = names;
    if !is_verdict(ended.status) {
        return compare_bytes(alloc, "the finding", b"", shelf.bytes(finding), found);
    }
    let words = ["regver", "check", old, new, relation, finding];
    let judged = run_program(alloc, &words, shelf, Vec::new(alloc))?;
    let mut valid = Vec::from_slice(alloc, b"VALID ")?;
    valid.extend_from_slice(verdict)?;
    let expected = answer(alloc, 0, &valid)?;
    compare_ended(alloc, "the finding, judged", &expected, &judged, found)
}
