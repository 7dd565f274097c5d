// What a decider finds out of a formula.
use cdcl_core::Plain;
use cdcl_watch::Watched;
use clause_core::{Cnf, Decided, Decider, Entry, Log, is_rising};
use derivation_check::Checker;
use std::alloc::{AllocError, Global};

/// Who decides.
#[derive(Clone, Copy)]
pub enum Way {
    Fast,
    Plain,
}

/// The decider that a word names.
pub fn way_of(word: &str) -> Option<Way> {
    match word {
        "fast" => Some(Way::Fast),
        "plain" => Some(Way::Plain),
        _ => None,
    }
}

/// What was decided, and how many proposals of the search were refused.
#[derive(Drop)]
pub struct Answer {
    pub decided: Decided,
    pub refused: u64,
}

/// Decides the formula by at most so many derived clauses, or not at all where the formula is too large.
pub fn decide(
    alloc: Global,
    way: Way,
    cnf: &mut Cnf,
    limit: u32,
) -> Result<Option<Answer>, AllocError> {
    if cnf.clauses().len() > 1_000_000_000 || limit == 0 || limit > 1_000_000_000 {
        return Ok(None);
    }
    let answer = match way {
        Way::Fast => {
            let mut watched = Watched::new();
            let decided = watched.decide(alloc, cnf, limit)?;
            let refused = watched.refused_proposals();
            Answer { decided, refused }
        }
        Way::Plain => {
            let mut plain = Plain::new();
            let decided = plain.decide(alloc, cnf, limit)?;
            let refused = plain.refused_proposals();
            Answer { decided, refused }
        }
    };
    Ok(Some(answer))
}

// Whether a step is accepted and fresh, or a deletion may be made; the checker takes it then.
fn takes(checker: &mut Checker, entry: &Entry) -> bool {
    match entry {
        Entry::Derived(step) => {
            let rises = is_rising(checker.variables(), step.clause.literals());
            rises && checker.fresh(step) && checker.step(step).is_ok()
        }
        Entry::Deleted(number) => checker.delete(*number as usize).is_ok(),
    }
}

/// How many entries of a log, from the first on, are right: steps that are accepted and fresh, and deletions that may be made.
pub fn right_entries(alloc: Global, cnf: Cnf, log: &Log) -> Result<usize, AllocError> {
    let mut checker = Checker::new(alloc, cnf)?;
    for (i, entry) in log.entries().iter().enumerate() {
        if !takes(&mut checker, entry) {
            return Ok(i);
        }
    }
    Ok(log.entries().len())
}
