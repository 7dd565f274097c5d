ghost use Rattle.std.specs.Prelude.{◌<◌, IfSome};
ghost use Rattle.gates.specs.Order.{IsOrdered};

use crate::drawing::draw;
use crate::free::{lane_bits, put_numbers, take_words};
use crate::near::change_some;
use crate::scans::{Scanned, allowed, failing, read_literals, run};
use crate::spelling::spelled;
use crate::starting::put_start;
use lane_sim::{Random, RunPlan, all_lanes, first_lane, no_lane, one_lane};
use pair_circuits::{PairParts, Product};
use queries::{CandidateSet, Decoded};
use std::alloc::{AllocError, Global};
use std::simd::u64x4;

/// How many scans the runs from the start have.
pub(crate) const SCANS: u32 = 16;

/// How many scans those from a pair that was found have.
const SCANS_NEAR: u32 = 4;

/// Where there are more gates, or more bits, nothing is run.
const MOST: usize = 1_048_576;

/// The even lanes of 64.
const EVEN: u64 = 0x5555_5555_5555_5555;

/// Runs of a pair of programs side by side, first from the start, later from pairs that were found.
#[derive(Drop)]
pub struct Runs<'p> {
    parts: &'p PairParts,
    product: &'p Product,
    random: Random,
    // the words of the free bits: the pair and the row of each run
    free: Vec<u64x4>,
    // what they were behind the runs from the start
    seen: Vec<u64x4>,
    // how a scan is run, where there is room for it
    plan: Option<RunPlan<'p>>,
    // the words of a scan
    words: Vec<u64x4>,
    // whether there is room for the runs, and they were put at the start
    has_begun: bool,
    // whether the words are those of the pairs and rows that the runs have now
    is_run: bool,
    // the runs whose rows were not yet proposed in this scan, a bit each
    untried: [u64; 4],
    // how many scans are still to be run
    left: u32,
    ghost ordered: { IsOrdered product.now.circuit },
}

/// Whether scans are run: not where there are too many bits or gates, or no candidate.
pub fn are_run(parts: &PairParts, product: &Product) -> bool {
    let circuit = &product.circuit;
    circuit.first() as usize <= MOST && circuit.count() <= MOST && !parts.candidates.is_empty()
}

impl<'p> Runs<'p> {
    /// Runs from the start, which begin when a row is asked for. Where the circuit is too large for them, or there is no candidate,
    /// they propose nothing.
    pub fn new(alloc: Global, parts: &'p PairParts, product: &'p Product) -> Runs<'p>
        requires { IsOrdered product.now.circuit }
    {
        Runs {
            parts,
            product,
            random: Random::new(),
            free: Vec::new(alloc),
            seen: Vec::new(alloc),
            plan: None,
            words: Vec::new(alloc),
            has_begun: false,
            is_run: false,
            untried: no_lane().to_array(),
            left: SCANS,
        }
    }

    /// Makes room for the runs and puts them at the start, the first time that it is called.
    pub(crate) fn make_room(&mut self, alloc: Global) -> Result<(), AllocError> {
        if self.has_begun {
            return Ok(());
        }
        if are_run(self.parts, self.product) {
            let read = read_literals(alloc, self.product)?;
            let plan = RunPlan::new(alloc, &self.product.circuit, read.as_slice())?;
            self.free = vec![in alloc; no_lane(); plan.bits()]?;
            self.words = vec![in alloc; no_lane(); plan.words()]?;
            self.plan = Some(plan);
        }
        self.has_begun = true;
        self.start();
        Ok(())
    }

    // Puts all runs at the start, each with a row of its own.
    fn start(&mut self) {
        put_start(self.free.as_mut_slice(), self.parts, self.product);
        self.draw_rows();
    }

    // Draws a row for each run.
    fn draw_rows(&mut self) {
        let lines = self.parts.lines.as_slice();
        let inputs = self.product.inputs.as_slice();
        draw(self.free.as_mut_slice(), &mut self.random, inputs, lines);
    }

    // Each run whose row is allowed goes on behind its scan.
    fn step(&mut self, set: &CandidateSet) {
        let product = self.product;
        let Some(plan) = &self.plan else {
            return;
        };
        let words = self.words.as_slice();
        let scanned = Scanned { plan, words };
        let lanes = allowed(&product.lits, &scanned, set);
        let free = self.free.as_mut_slice();
        let (pair, behind) = (&product.pair, &product.behind);
        take_words(
            free,
            &scanned,
            pair.old.as_slice(),
            behind.old.as_slice(),
            lanes,
        );
        take_words(
            free,
            &scanned,
            pair.new.as_slice(),
            behind.new.as_slice(),
            lanes,
        );
        self.draw_rows();
    }

    // Runs a scan of the pairs and rows that the runs have, and says whether there is room for it.
    fn scan(&mut self) -> bool {
        let Some(plan) = &self.plan else {
            return false;
        };
        run(plan, self.free.as_slice(), self.words.as_mut_slice())
    }

    /// Goes on to the next scan, and says whether there is one.
    pub(crate) fn go_on(&mut self, set: &CandidateSet) -> bool {
        if self.left == 0 {
            return false;
        }
        self.left -= 1;
        if self.is_run {
            self.step(set);
        }
        self.is_run = self.scan();
        self.untried = all_lanes().to_array();
        self.is_run
    }

    /// The first run that was not yet proposed whose scan makes one of the set fail.
    pub(crate) fn failing_lane(&self, set: &CandidateSet) -> Option<usize>
        ensures { IfSome result (λ lane. lane < 256) }
    {
        if !self.is_run {
            return None;
        }
        let Some(plan) = &self.plan else {
            return None;
        };
        let words = self.words.as_slice();
        let lanes = failing(&self.product.lits, &Scanned { plan, words }, set);
        first_lane(lanes & u64x4::from_array(self.untried))
    }

    /// The pair and the row of a run.
    pub(crate) fn propose(&mut self, alloc: Global, lane: usize) -> Result<Decoded, AllocError>
        requires { lane < 256 }
    {
        let others = one_lane(lane) ^ all_lanes();
        self.untried = (u64x4::from_array(self.untried) & others).to_array();
        let bits = lane_bits(alloc, self.free.as_slice(), lane)?;
        spelled(alloc, self.parts, self.product, bits.as_slice())
    }

    /// Puts all runs at a pair that was found: the first with the row that was found, others with rows or cells changed.
    pub(crate) fn go_near(&mut self, found: &Decoded) -> Result<(), AllocError> {
        if self.seen.is_empty() {
            self.seen.extend_from_slice(self.free.as_slice())?;
        }
        let product = self.product;
        let free = self.free.as_mut_slice();
        put_numbers(
            free,
            product.pair.old.as_slice(),
            found.old.as_slice(),
            all_lanes(),
        );
        put_numbers(
            free,
            product.pair.new.as_slice(),
            found.new.as_slice(),
            all_lanes(),
        );
        self.draw_rows();
        if let Some(row) = found.rows.as_slice().first() {
            let lanes = u64x4::from_array([1, EVEN, EVEN, EVEN]);
            let inputs = product.inputs.as_slice();
            put_numbers(self.free.as_mut_slice(), inputs, row.as_slice(), lanes);
        }
        change_some(
            self.free.as_mut_slice(),
            self.seen.as_slice(),
            &mut self.random,
        );
        self.is_run = false;
        self.left = SCANS_NEAR;
        Ok(())
    }
}
