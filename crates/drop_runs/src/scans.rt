// One scan in all lanes.
use clause_core::Lit;
use lane_sim::{RunPlan, all_lanes, lanes_of as lanes_in, no_lane};
use pair_circuits::{Product, ProductLits};
use queries::CandidateSet;
use std::alloc::{AllocError, Global};
use std::simd::u64x4;

/// The words behind a scan, and the plan that says where literals stand in them.
#[derive(Drop)]
pub(crate) struct Scanned<'r, 'p> {
    pub(crate) plan: &'r RunPlan<'p>,
    pub(crate) words: &'r [u64x4],
}

// Adds the literals of words.
fn add_words(lits: &mut Vec<Lit>, words: &[Vec<Lit>]) -> Result<(), AllocError> {
    for word in words {
        lits.extend_from_slice(word.as_slice())?;
    }
    Ok(())
}

/// The literals that are read behind a scan.
pub(crate) fn read_literals(alloc: Global, product: &Product) -> Result<Vec<Lit>, AllocError> {
    let lits = &product.lits;
    let mut read = Vec::new(alloc);
    read.extend_from_slice(lits.outside.as_slice())?;
    read.extend_from_slice(lits.environment.as_slice())?;
    read.extend_from_slice(lits.before.as_slice())?;
    read.extend_from_slice(lits.after.as_slice())?;
    add_words(&mut read, product.behind.old.as_slice())?;
    add_words(&mut read, product.behind.new.as_slice())?;
    Ok(read)
}

/// Runs a circuit by its plan where there is a word for each of its bits, and as many words as it needs, and says whether there is.
pub(crate) fn run(plan: &RunPlan, free: &[u64x4], words: &mut [u64x4]) -> bool {
    if free.len() != plan.bits() || words.len() != plan.words() {
        return false;
    }
    plan.run(free, words);
    true
}

/// The lanes where a literal is true; none where it is not read behind a scan.
pub(crate) fn lanes_of(scanned: &Scanned, lit: Lit) -> u64x4 {
    let Some(place) = scanned.plan.place(lit) else {
        return no_lane();
    };
    lanes_in(scanned.words, place)
}

// The lanes where all literals are true.
fn all_true(scanned: &Scanned, lits: &[Lit]) -> u64x4 {
    let mut lanes = all_lanes();
    for lit in lits {
        lanes = lanes & lanes_of(scanned, *lit);
    }
    lanes
}

// The lanes where none of the literals is true.
fn none_true(scanned: &Scanned, lits: &[Lit]) -> u64x4 {
    let mut lanes = all_lanes();
    for lit in lits {
        lanes = lanes & lanes_of(scanned, lit.negated());
    }
    lanes
}

// The lanes where the literals of the candidates of a set are true, the first of the list being that of candidate 0.
fn members_true(scanned: &Scanned, set: &CandidateSet, lits: &[Lit]) -> u64x4 {
    let mut lanes = all_lanes();
    for i in 0..lits.len() {
        if set.has(i) {
            lanes = lanes & lanes_of(scanned, lits[i]);
        }
    }
    lanes
}

/// The lanes whose pair is in range and meets a set, and whose row is allowed.
pub(crate) fn allowed(lits: &ProductLits, scanned: &Scanned, set: &CandidateSet) -> u64x4 {
    let inside = none_true(scanned, lits.outside.as_slice());
    let loaded = all_true(scanned, lits.environment.as_slice());
    inside & loaded & members_true(scanned, set, lits.before.as_slice())
}

/// Those of them behind whose scan one of the set fails.
pub(crate) fn failing(lits: &ProductLits, scanned: &Scanned, set: &CandidateSet) -> u64x4 {
    let behind = members_true(scanned, set, lits.after.as_slice());
    allowed(lits, scanned, set) & (behind ^ all_lanes())
}
