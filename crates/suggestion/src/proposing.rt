// Lines that held on runs. Of all this nothing is asked: the lines and the runs are tested.
ghost use Rattle.scan_replay.specs.Duos.{AreComparable};

use crate::edges::edges_of;
use crate::standing::new_lines;
use crate::stated_line::lines_of;
use crate::wording::Wording;
use line_trials::{Effort, InvariantLine, Plan, try_runs};
use plc_types::Value;
use program_tree::Program;
use proposals::proposals;
use scan_model::Relation;
use seen_values::{Seen, subjects_of};
use std::alloc::{AllocError, Global};

// How many candidates a relation may have.
const MOST_CANDIDATES: usize = 4_096;

/// Lines, the runs that they were found on, and how many pairs these have; and where a scan left the pair unrelated, its number in
/// the last run.
#[derive(Drop)]
pub struct Proposed {
    pub lines: Vec<InvariantLine>,
    pub runs: Vec<Vec<Vec<Value>>>,
    pub pairs: usize,
    pub unrelated: Option<usize>,
}

/// Lines that held on all pairs of runs and do not stand in the text already; none where a scan left a pair unrelated, since no line
/// helps there.
pub fn propose(
    alloc: Global,
    old: &Program,
    new: &Program,
    relation: &Relation,
    text: &[u8],
    wording: &Wording,
    effort: Effort,
) -> Result<Proposed, AllocError>
    requires { AreComparable old.now new.now relation.now }
{
    let subjects = subjects_of(alloc, old, new)?;
    let plan = Plan::of_cells(subjects.len(), effort);
    let numbers = wording.numbers.as_slice();
    let mut seen = Seen::new(alloc, subjects.len());
    let tried = try_runs(alloc, old, new, relation, numbers, &plan, &mut seen)?;
    let pairs = seen.rows();
    let lines = if tried.unrelated.is_some() {
        Vec::new(alloc)
    } else {
        let edges = edges_of(alloc, old, new, relation, numbers)?;
        let room = MOST_CANDIDATES.saturating_sub(relation.candidates.len());
        // As many lines more as may stand in the text already.
        let most = room.saturating_add(relation.invariants);
        let found = proposals(alloc, &seen, subjects.as_slice(), edges.as_slice(), most)?;
        let lines = lines_of(alloc, old, new, wording, found.as_slice(), pairs, most)?;
        new_lines(alloc, text, lines, room)?
    };
    Ok(Proposed {
        lines,
        runs: tried.runs,
        pairs,
        unrelated: tried.unrelated,
    })
}
