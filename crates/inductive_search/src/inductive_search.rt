// First runs from the start, then the search: at once where there is much to search, else once a query gave a row.
ghost use Rattle.gates.specs.Order.{IsOrdered};

use crate::candidate_search::CandidateSearch;
use drop_runs::{Runs, are_run, start_bits};
use invariant_prune::Guesses;
use pair_circuits::{PairParts, Product};
use queries::{CandidateSet, Decoded};
use std::alloc::{AllocError, Global};
use std::mem;

/// From so many candidates on a whole query may take as long as the search.
const MANY_CANDIDATES: usize = 256;

/// It does not where there are fewer gates than this for each of them.
const GATES_A_CANDIDATE: usize = 8;

/// A search for the greatest inductive set: first by runs from the start, then candidate by candidate.
#[derive(Drop)]
pub struct InductiveSearch<'p> {
    pub(crate) parts: &'p PairParts,
    pub(crate) product: &'p Product,
    pub(crate) runs: Runs<'p>,
    // whether the runs may still propose rows
    has_runs: bool,
    // whether a query gave a row: where the first one is refuted, and there is little to search, no search is wanted
    is_wanted: bool,
    // the free bits of the start with an allowed row, until the search begins; none where it is not to begin
    start: Vec<bool>,
    limit: u32,
    pub(crate) search: Option<CandidateSearch<'p>>,
}

// How many candidates are in a set.
fn size_of(set: &CandidateSet) -> usize {
    let mut size = 0usize;
    for number in 0..set.count() {
        if set.has(number) {
            size = size.wrapping_add(1);
        }
    }
    size
}

impl<'p> InductiveSearch<'p> {
    /// A search that has not begun.
    pub fn new(alloc: Global, parts: &'p PairParts, product: &'p Product) -> InductiveSearch<'p>
        requires { IsOrdered product.now.circuit }
    {
        InductiveSearch {
            parts,
            product,
            runs: Runs::new(alloc, parts, product),
            has_runs: true,
            is_wanted: false,
            start: Vec::new(alloc),
            limit: 0,
            search: None,
        }
    }

    /// Lets the search begin when it is wanted: near the start with this row, and with at most so many conflicts.
    pub(crate) fn set_start(
        &mut self,
        alloc: Global,
        seen: &Decoded,
        limit: u32,
    ) -> Result<(), AllocError> {
        self.limit = limit;
        if let Some(row) = seen.rows.as_slice().first()
            && are_run(self.parts, self.product)
        {
            self.start = start_bits(alloc, self.parts, self.product, row.as_slice())?;
        }
        Ok(())
    }

    /// Lets the runs propose again, and the search behind them.
    pub(crate) fn renew_runs(&mut self) {
        self.has_runs = true;
        self.is_wanted = true;
    }

    /// The next row of the runs.
    pub(crate) fn next_run(
        &mut self,
        alloc: Global,
        set: &CandidateSet,
    ) -> Result<Option<Decoded>, AllocError> {
        if !self.has_runs {
            return Ok(None);
        }
        let row = self.runs.next(alloc, set)?;
        self.has_runs = row.is_some();
        Ok(row)
    }

    // Begins the search, once.
    fn begin_search(&mut self, alloc: Global, set: &CandidateSet) -> Result<(), AllocError> {
        if self.start.is_empty() {
            return Ok(());
        }
        let start = mem::replace(&mut self.start, Vec::new(alloc));
        let limit = u64::from(self.limit);
        let mut search = CandidateSearch::new(alloc, self.parts, self.product, start, limit)?;
        search.queue_start(alloc, set)?;
        self.search = Some(search);
        Ok(())
    }

    // Whether a search of a set takes less time than a whole query, most likely.
    fn has_much(&self, set: &CandidateSet) -> bool {
        let size = size_of(set);
        size >= MANY_CANDIDATES && self.product.circuit.count() / GATES_A_CANDIDATE >= size
    }

    /// The next row of the search, which begins where it is wanted and has not begun.
    pub(crate) fn next_found(
        &mut self,
        alloc: Global,
        set: &CandidateSet,
    ) -> Result<Option<Decoded>, AllocError> {
        if self.search.is_none() && (self.is_wanted || self.has_much(set)) {
            self.begin_search(alloc, set)?;
        }
        match &mut self.search {
            Some(search) => search.next(alloc, set),
            None => Ok(None),
        }
    }
}
