use crate::inductive_search::InductiveSearch;
use cdcl_watch::Guide;
use invariant_prune::Guesses;
use queries::{CandidateSet, Decoded};
use std::alloc::{AllocError, Global};

impl<'p> Guesses for InductiveSearch<'p> {
    fn begin(&mut self, alloc: Global, seen: &Decoded, limit: u32) -> Result<(), AllocError> {
        self.set_start(alloc, seen, limit)?;
        self.runs.begin(alloc, seen, limit)
    }

    fn next(&mut self, alloc: Global, set: &CandidateSet) -> Result<Option<Decoded>, AllocError> {
        match self.next_run(alloc, set)? {
            Some(row) => Ok(Some(row)),
            None => self.next_found(alloc, set),
        }
    }

    fn found(&mut self, alloc: Global, found: &Decoded) -> Result<(), AllocError> {
        self.renew_runs();
        self.runs.found(alloc, found)
    }

    fn step_guide(
        &mut self,
        alloc: Global,
        set: &CandidateSet,
    ) -> Result<Option<Guide>, AllocError> {
        match &mut self.search {
            Some(search) => search.step_guide(alloc, set),
            None => Ok(None),
        }
    }

    fn goal_guide(
        &mut self,
        _alloc: Global,
        set: &CandidateSet,
    ) -> Result<Option<Guide>, AllocError> {
        match &mut self.search {
            Some(search) => search.goal_guide(set),
            None => Ok(None),
        }
    }
}
