// The search candidate by candidate.
use crate::queue::RowQueue;
use crate::taking::{Behind, FoundRow};
use clause_core::Lit;
use cone_search::ConeSearch;
use drop_runs::spelled;
use near_runs::NearRuns;
use pair_circuits::{PairParts, Product};
use propagation_trail::{low, read};
use queries::{CandidateSet, Decoded};
use std::alloc::{AllocError, Global};

/// The budget of conflicts of a question in the first pass.
const FIRST_BUDGET: u64 = 20;

/// What stands in the queue, and so what comes when all of it was proposed.
#[derive(Clone, Copy, PartialEq, Eq)]
pub(crate) enum Stage {
    /// The row from the start.
    Start,
    /// The rows of a pass.
    Pass,
    /// Nothing: no row leads out of the set that is settled on.
    End,
    /// The rows of the last pass: there will be no other.
    GivenUp,
}

/// What is known of the candidates, and the rows that were found.
#[derive(Drop)]
pub(crate) struct CandidateSearch<'p> {
    pub parts: &'p PairParts,
    pub product: &'p Product,
    pub cone: ConeSearch<'p>,
    pub near: NearRuns<'p>,
    pub behind: Behind,
    /// The free bits of the start with an allowed row, the first being that of variable 2.
    pub start: Vec<bool>,
    /// In which order candidates are asked.
    pub order: Vec<u32>,
    /// The set as the facts have it, a mark for each candidate.
    pub settled: Vec<bool>,
    /// Those of them that no row of this pass drops.
    pub alive: Vec<bool>,
    /// What a row has to meet.
    pub wanted: Vec<Lit>,
    /// The variables of the free bits of a question.
    pub needs: Vec<u32>,
    /// The rows of a pass.
    pub found: Vec<FoundRow>,
    pub queue: RowQueue,
    pub budget: u64,
    /// How many conflicts there may be in all.
    pub limit: u64,
    /// Whether a question of the pass was left open.
    pub is_open: bool,
    /// Whether a question of the pass had a row.
    pub has_rows: bool,
    pub stage: Stage,
}

impl<'p> CandidateSearch<'p> {
    /// A search near the start with an allowed row, by its free bits.
    pub fn new(
        alloc: Global,
        parts: &'p PairParts,
        product: &'p Product,
        start: Vec<bool>,
        limit: u64,
    ) -> Result<CandidateSearch<'p>, AllocError> {
        let after = product.lits.after.as_slice();
        let near = NearRuns::new(alloc, &product.circuit, start.as_slice())?;
        let cone = ConeSearch::new(alloc, &product.circuit, near.base())?;
        let behind = Behind::new(alloc, after, near.base().len())?;
        let settled = vec![in alloc; false; after.len()]?;
        Ok(CandidateSearch {
            parts,
            product,
            cone,
            near,
            behind,
            start,
            order: Vec::new(alloc),
            settled,
            alive: Vec::new(alloc),
            wanted: Vec::new(alloc),
            needs: Vec::new(alloc),
            found: Vec::new(alloc),
            queue: RowQueue::new(alloc),
            budget: FIRST_BUDGET,
            limit,
            is_open: false,
            has_rows: false,
            stage: Stage::Start,
        })
    }

    /// Whether a candidate holds behind the row from the start.
    pub fn holds_at_start(&self, candidate: usize) -> bool {
        match self.product.lits.after.get(candidate) {
            Some(lit) => read(self.near.base(), lit.variable as usize, false) != lit.negative,
            None => true,
        }
    }

    /// Puts the row from the start into the queue.
    pub fn queue_start(&mut self, alloc: Global, set: &CandidateSet) -> Result<(), AllocError> {
        let mut drops = Vec::new(alloc);
        for candidate in 0..self.settled.len() {
            if set.has(candidate) && !self.holds_at_start(candidate) {
                drops.push(low(candidate))?;
            }
        }
        let mut bits = Vec::new(alloc);
        bits.extend_from_slice(self.start.as_slice())?;
        let needs = Vec::new(alloc);
        self.queue.push(FoundRow { bits, needs, drops })
    }

    // Goes on where all of the queue was proposed, and says whether the queue was filled again.
    fn go_on(&mut self, alloc: Global, set: &CandidateSet) -> Result<bool, AllocError> {
        let stage = match self.stage {
            Stage::Start => self.begin(alloc, set)?,
            Stage::Pass | Stage::End => self.settle(alloc, set)?,
            Stage::GivenUp => Stage::GivenUp,
        };
        self.stage = stage;
        if stage != Stage::Pass {
            return Ok(false);
        }
        self.pass(alloc)?;
        self.queue_found(alloc)?;
        Ok(true)
    }

    /// The next row to try on a set, if there is one.
    pub fn next(
        &mut self,
        alloc: Global,
        set: &CandidateSet,
    ) -> Result<Option<Decoded>, AllocError> {
        for _ in 0..u64::MAX {
            if self.queue.go_on(set) {
                let row = spelled(alloc, self.parts, self.product, self.queue.bits())?;
                return Ok(Some(row));
            }
            if !self.go_on(alloc, set)? {
                break;
            }
        }
        Ok(None)
    }
}
