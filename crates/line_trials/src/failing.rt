// Which of the candidates fail on runs. Of the marks nothing is asked.
ghost use Rattle.scan_replay.specs.Duos.{AreComparable};

use plc_types::Value;
use program_tree::Program;
use scan_model::Relation;
use scan_replay::Duo;
use std::alloc::{AllocError, Global};

// Marks what fails on a pair; the first mark is that of the candidate of the number `given`.
fn mark(duo: &Duo<'_>, given: usize, marks: &mut [bool]) {
    for place in 0..marks.len() {
        if !duo.holds(given.wrapping_add(place)) {
            marks[place] = true;
        }
    }
}

// Marks what fails on the pair and along rows from there.
fn mark_along(duo: &mut Duo<'_>, given: usize, rows: &[Vec<Value>], marks: &mut [bool]) {
    mark(duo, given, marks);
    for row in rows {
        if !duo.allowed(row.as_slice()) {
            return;
        }
        duo.step(row.as_slice());
        mark(duo, given, marks);
    }
}

/// A mark for each INVARIANT clause from the number `given` on: whether it fails on a pair of the runs.
pub fn failing(
    alloc: Global,
    old: &Program,
    new: &Program,
    relation: &Relation,
    given: usize,
    runs: &[Vec<Vec<Value>>],
) -> Result<Vec<bool>, AllocError>
    requires { AreComparable old.now new.now relation.now }
{
    let mut duo = Duo::new(alloc, old, new, relation)?;
    let mut marks = Vec::new(alloc);
    for _ in given..relation.invariants {
        marks.push(false)?;
    }
    for run in runs {
        duo.reset();
        mark_along(&mut duo, given, run.as_slice(), marks.as_mut_slice());
    }
    Ok(marks)
}
