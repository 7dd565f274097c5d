// Scans that lead to a pair on which a candidate does not hold.
ghost use Rattle.scan_replay.specs.Duos.{AreComparable};

use pair_trial::Trial;
use plc_types::Value;
use program_tree::Program;
use scan_model::Relation;
use std::alloc::{AllocError, Global};

/// A scan: the values of the cells of both programs before it, and its row.
#[derive(Drop)]
pub struct Leaving {
    pub old: Vec<Value>,
    pub new: Vec<Value>,
    pub row: Vec<Value>,
}

// Runs a scan. Answers whether it may be.
fn run(trial: &mut Trial<'_>, leaving: &Leaving) -> bool {
    let (old, new) = (leaving.old.as_slice(), leaving.new.as_slice());
    let row = leaving.row.as_slice();
    if !trial.pair_fits(old, new) {
        return false;
    }
    trial.set_pair(old, new);
    if !trial.allowed(row) {
        return false;
    }
    trial.step(row);
    true
}

// Notes a scan for the candidates that do not hold after it and for which none was noted; the first mark is that of the number `given`.
fn note(trial: &Trial<'_>, given: usize, number: usize, marks: &mut [Option<usize>]) {
    for place in 0..marks.len() {
        if marks[place].is_none() && !trial.holds(given.wrapping_add(place)) {
            marks[place] = Some(number);
        }
    }
}

/// For each INVARIANT clause from the number `given` on, the number of the first scan after which it does not hold.
pub fn first_leaving(
    alloc: Global,
    old: &Program,
    new: &Program,
    relation: &Relation,
    given: usize,
    scans: &[Leaving],
) -> Result<Vec<Option<usize>>, AllocError>
    requires { AreComparable old.now new.now relation.now }
{
    let mut trial = Trial::new(alloc, old, new, relation)?;
    let mut marks: Vec<Option<usize>> = Vec::new(alloc);
    for _ in given..relation.invariants {
        marks.push(None)?;
    }
    for (number, leaving) in scans.iter().enumerate() {
        if run(&mut trial, leaving) {
            note(&trial, given, number, marks.as_mut_slice());
        }
    }
    Ok(marks)
}
