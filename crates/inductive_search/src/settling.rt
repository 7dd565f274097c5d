// A new pass from the set that is left.
use crate::candidate_search::{CandidateSearch, Stage};
use crate::facts::{add_facts, gather_wanted};
use crate::order::by_cone;
use propagation_trail::{low, read, write};
use queries::CandidateSet;
use std::alloc::{AllocError, Global};

/// How many times the budget of conflicts of one pass is that of the next.
const BUDGET_GROWTH: u64 = 8;

impl<'p> CandidateSearch<'p> {
    // Takes back what holds by candidates that are gone, and says what comes next.
    fn take_back(&mut self, gone: &[u32]) -> Result<Stage, AllocError> {
        let settled = self.settled.as_slice();
        self.alive.clear();
        self.alive.extend_from_slice(settled)?;
        gather_wanted(&mut self.wanted, &self.product.lits, settled)?;
        self.near.settle(self.wanted.as_slice())?;
        if self.cone.take_back(gone)? {
            Ok(Stage::Pass)
        } else {
            Ok(Stage::GivenUp)
        }
    }

    // Whether one of the set that is settled on fails behind the row from the start.
    fn fails_at_start(&self) -> bool {
        for candidate in 0..self.settled.len() {
            if read(self.settled.as_slice(), candidate, false) && !self.holds_at_start(candidate) {
                return true;
            }
        }
        false
    }

    /// Settles on the first set, and says what comes next.
    pub fn begin(&mut self, alloc: Global, set: &CandidateSet) -> Result<Stage, AllocError> {
        for candidate in 0..self.settled.len() {
            write(self.settled.as_mut_slice(), candidate, set.has(candidate));
        }
        if self.fails_at_start() {
            return Ok(Stage::GivenUp);
        }
        let lits = &self.product.lits;
        add_facts(&mut self.cone, lits, self.settled.as_slice())?;
        let stage = self.take_back(&[])?;
        let settled = self.settled.as_slice();
        self.order = by_cone(alloc, &mut self.cone, lits.after.as_slice(), settled)?;
        Ok(stage)
    }

    // Marks the candidates that are no longer in a set as gone, and lists them.
    fn remove_gone(&mut self, alloc: Global, set: &CandidateSet) -> Result<Vec<u32>, AllocError> {
        let mut gone = Vec::new(alloc);
        for candidate in 0..self.settled.len() {
            if read(self.settled.as_slice(), candidate, false) && !set.has(candidate) {
                write(self.settled.as_mut_slice(), candidate, false);
                gone.push(low(candidate))?;
            }
        }
        Ok(gone)
    }

    /// Settles on the set that is left, and says what comes next.
    pub fn settle(&mut self, alloc: Global, set: &CandidateSet) -> Result<Stage, AllocError> {
        let gone = self.remove_gone(alloc, set)?;
        if !gone.is_empty() {
            return self.take_back(gone.as_slice());
        }
        if self.stage == Stage::End {
            return Ok(Stage::End);
        }
        if self.has_rows {
            // A row that was found dropped nothing.
            return Ok(Stage::GivenUp);
        }
        if !self.is_open {
            return Ok(Stage::End);
        }
        if self.budget > self.limit {
            return Ok(Stage::GivenUp);
        }
        self.budget = self.budget.saturating_mul(BUDGET_GROWTH);
        Ok(Stage::Pass)
    }
}
