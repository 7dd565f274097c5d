// The clauses that the end of the search rests on.
use crate::asking::ask;
use crate::candidate_search::{CandidateSearch, Stage};
use cdcl_watch::Guide;
use clause_core::Lit;
use cone_search::Asked;
use propagation_trail::read;
use queries::CandidateSet;
use std::alloc::{AllocError, Global};

impl<'p> CandidateSearch<'p> {
    // Whether the search came to its end with exactly this set.
    fn ended_with(&self, set: &CandidateSet) -> bool {
        if self.stage != Stage::End {
            return false;
        }
        for candidate in 0..self.settled.len() {
            if read(self.settled.as_slice(), candidate, false) != set.has(candidate) {
                return false;
            }
        }
        true
    }

    // The literals behind a scan of the set that is settled on.
    fn goals(&self, alloc: Global) -> Result<Vec<Lit>, AllocError> {
        let after = self.product.lits.after.as_slice();
        let mut goals = Vec::new(alloc);
        for candidate in 0..after.len() {
            if read(self.settled.as_slice(), candidate, false) {
                goals.push(after[candidate])?;
            }
        }
        Ok(goals)
    }

    /// The clauses by which no row leads out of a set, if the search came to its end with it.
    pub fn step_guide(
        &mut self,
        alloc: Global,
        set: &CandidateSet,
    ) -> Result<Option<Guide>, AllocError> {
        if !self.ended_with(set) {
            return Ok(None);
        }
        let goals = self.goals(alloc)?;
        let guide = self.cone.rests_on(goals.as_slice())?;
        Ok(Some(guide))
    }

    // Whether each of these literals holds behind a scan.
    fn all_hold(&mut self, goals: &[Lit]) -> Result<bool, AllocError> {
        for goal in goals {
            if ask(&mut self.cone, &mut self.near, *goal, self.limit)? != Asked::Holds {
                return Ok(false);
            }
        }
        Ok(true)
    }

    /// The clauses by which the pair is related behind each row from a set, if the search came to its end with it.
    pub fn goal_guide(&mut self, set: &CandidateSet) -> Result<Option<Guide>, AllocError> {
        let relates = self.product.lits.relates.as_slice();
        if !self.ended_with(set) || !self.all_hold(relates)? {
            return Ok(None);
        }
        let guide = self.cone.rests_on(relates)?;
        Ok(Some(guide))
    }
}
