use cdcl_watch::Guide;
use queries::{CandidateSet, Decoded};
use std::alloc::{AllocError, Global};

/// Who proposes rows that may drop candidates, and clauses from which it may be shown that none does. Nothing is owed: each row is
/// tested before it is used, and each clause is derived.
pub trait Guesses {
    /// Tells of a first row that is allowed, and of how many clauses a query may take. It comes before all else.
    fn begin(&mut self, alloc: Global, seen: &Decoded, limit: u32) -> Result<(), AllocError>;

    /// The next pair and row to try on a set, if there is one.
    fn next(&mut self, alloc: Global, set: &CandidateSet) -> Result<Option<Decoded>, AllocError>;

    /// Tells of a pair and a row that a query gave, near which there may be others.
    fn found(&mut self, alloc: Global, found: &Decoded) -> Result<(), AllocError>;

    /// Clauses that lead to where no allowed row leads out of a set, if it has them.
    fn step_guide(
        &mut self,
        alloc: Global,
        set: &CandidateSet,
    ) -> Result<Option<Guide>, AllocError>;

    /// Clauses that lead to where the pair is related behind each allowed row from a set, if it has them.
    fn goal_guide(
        &mut self,
        alloc: Global,
        set: &CandidateSet,
    ) -> Result<Option<Guide>, AllocError>;
}

/// No guess at all.
#[derive(Drop)]
pub struct NoGuesses;

impl Guesses for NoGuesses {
    fn begin(&mut self, _alloc: Global, _seen: &Decoded, _limit: u32) -> Result<(), AllocError> {
        Ok(())
    }

    fn next(&mut self, _alloc: Global, _set: &CandidateSet) -> Result<Option<Decoded>, AllocError> {
        Ok(None)
    }

    fn found(&mut self, _alloc: Global, _found: &Decoded) -> Result<(), AllocError> {
        Ok(())
    }

    fn step_guide(
        &mut self,
        _alloc: Global,
        _set: &CandidateSet,
    ) -> Result<Option<Guide>, AllocError> {
        Ok(None)
    }

    fn goal_guide(
        &mut self,
        _alloc: Global,
        _set: &CandidateSet,
    ) -> Result<Option<Guide>, AllocError> {
        Ok(None)
    }
}
