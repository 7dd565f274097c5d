// One question for each candidate.
use crate::asking::ask;
use crate::candidate_search::{CandidateSearch, Stage};
use crate::joining::joined_rows;
use crate::taking::{FoundRow, take_rows};
use clause_core::Lit;
use cone_search::Asked;
use lane_sim::is_set;
use near_runs::NearRuns;
use propagation_trail::{low, read};
use std::alloc::{AllocError, Global};

// The candidates of a set that fail in a lane.
fn failing(
    alloc: Global,
    near: &NearRuns,
    after: &[Lit],
    set: &[bool],
    lane: usize,
) -> Result<Vec<u32>, AllocError> {
    let mut fail = Vec::new(alloc);
    if lane >= 256 {
        return Ok(fail);
    }
    for candidate in 0..after.len() {
        if read(set, candidate, false) && !is_set(near.word(after[candidate]), lane) {
            fail.push(low(candidate))?;
        }
    }
    Ok(fail)
}

impl<'p> CandidateSearch<'p> {
    // Keeps the rows that drop, of the runs behind a question.
    fn take(&mut self, alloc: Global) -> Result<(), AllocError> {
        let after = self.product.lits.after.as_slice();
        self.needs.clear();
        for lit in self.cone.bits() {
            self.needs.push(lit.variable)?;
        }
        let needs = self.needs.as_slice();
        let alive = self.alive.as_mut_slice();
        take_rows(
            alloc,
            &self.near,
            after,
            &self.behind,
            needs,
            alive,
            &mut self.found,
        )
    }

    // Asks whether a literal holds behind a scan from the set.
    fn ask_one(&mut self, alloc: Global, goal: Lit) -> Result<(), AllocError> {
        match ask(&mut self.cone, &mut self.near, goal, self.budget)? {
            Asked::Holds => Ok(()),
            Asked::Unknown => {
                self.is_open = true;
                Ok(())
            }
            Asked::Fails => self.take(alloc),
        }
    }

    /// Asks each candidate that no row drops and that is not known to hold. Where there were too many conflicts it gives up.
    pub fn pass(&mut self, alloc: Global) -> Result<(), AllocError> {
        let after = self.product.lits.after.as_slice();
        self.is_open = false;
        for place in 0..self.order.len() {
            let candidate = read(self.order.as_slice(), place, 0) as usize;
            let Some(goal) = after.get(candidate) else {
                continue;
            };
            if !read(self.alive.as_slice(), candidate, false) || self.cone.holds(*goal) {
                continue;
            }
            self.ask_one(alloc, *goal)?;
            if self.cone.conflicts() > self.limit {
                self.stage = Stage::GivenUp;
                break;
            }
        }
        Ok(())
    }

    // Puts those of the joined rows into the queue that meet all that is wanted.
    fn queue_joined(&mut self, alloc: Global, joined: Vec<Vec<bool>>) -> Result<(), AllocError> {
        let after = self.product.lits.after.as_slice();
        self.near.run_rows(joined.as_slice())?;
        let good = self.near.good();
        let mut lane = 0usize;
        for bits in joined {
            if lane < 256 && is_set(good, lane) {
                let drops = failing(alloc, &self.near, after, self.settled.as_slice(), lane)?;
                let needs = Vec::new(alloc);
                self.queue.push(FoundRow { bits, needs, drops })?;
            }
            lane = lane.wrapping_add(1);
        }
        Ok(())
    }

    /// Puts the rows of the pass into the queue, what comes of them where they are joined first.
    pub fn queue_found(&mut self, alloc: Global) -> Result<(), AllocError> {
        self.queue.clear();
        self.has_rows = !self.found.is_empty();
        let joined = joined_rows(alloc, self.found.as_slice(), self.start.as_slice())?;
        if !joined.is_empty() {
            self.queue_joined(alloc, joined)?;
        }
        self.queue.append(&mut self.found)
    }
}
