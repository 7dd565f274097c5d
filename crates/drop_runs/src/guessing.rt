use crate::runs::{Runs, SCANS};
use cdcl_watch::Guide;
use invariant_prune::Guesses;
use queries::{CandidateSet, Decoded};
use std::alloc::{AllocError, Global};

impl<'p> Guesses for Runs<'p> {
    fn begin(&mut self, _alloc: Global, _seen: &Decoded, _limit: u32) -> Result<(), AllocError> {
        Ok(())
    }

    fn next(&mut self, alloc: Global, set: &CandidateSet) -> Result<Option<Decoded>, AllocError> {
        self.make_room(alloc)?;
        for _scan in 0..SCANS + 1 {
            if let Some(lane) = self.failing_lane(set) {
                let proposed = self.propose(alloc, lane)?;
                return Ok(Some(proposed));
            }
            if !self.go_on(set) {
                return Ok(None);
            }
        }
        Ok(None)
    }

    fn found(&mut self, alloc: Global, found: &Decoded) -> Result<(), AllocError> {
        self.make_room(alloc)?;
        self.go_near(found)
    }

    fn step_guide(
        &mut self,
        _alloc: Global,
        _set: &CandidateSet,
    ) -> Result<Option<Guide>, AllocError> {
        Ok(None)
    }

    fn goal_guide(
        &mut self,
        _alloc: Global,
        _set: &CandidateSet,
    ) -> Result<Option<Guide>, AllocError> {
        Ok(None)
    }
}
