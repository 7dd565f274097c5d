// The runs.
ghost use Rattle.std.specs.Prelude.{◌<◌};

use crate::base_run::run_base;
use crate::changes::Changes;
use crate::events::Events;
use crate::requirements::{Requirements, Tie};
use crate::words::{Words, gate_word};
use clause_core::Lit;
use gates::Circuit;
use lane_sim::{LANE_COUNT, all_lanes, choose_word, is_set, lanes_if, lanes_of, no_lane, one_lane};
use propagation_trail::{low, read};
use std::alloc::{AllocError, Global};
use std::simd::u64x4;

/// How many gates have their bits in one word.
const WORD: usize = 64;

/// Runs near a base. Those of a call to `run_near` or `run_rows` stand until the next.
#[derive(Drop)]
pub struct NearRuns<'p> {
    circuit: &'p Circuit,
    words: Words,
    events: Events,
    requirements: Requirements,
    changes: Changes,
    failed: Vec<Lit>,
    good: [u64; 4],
}

impl<'p> NearRuns<'p> {
    /// Runs near the run whose free bits have these values, the first being that of variable 2.
    pub fn new(
        alloc: Global,
        circuit: &'p Circuit,
        free: &[bool],
    ) -> Result<NearRuns<'p>, AllocError> {
        let base = run_base(alloc, circuit, free)?;
        let requirements = Requirements::new(alloc, base.len())?;
        Ok(NearRuns {
            circuit,
            words: Words::new(alloc, base)?,
            events: Events::new(alloc, circuit)?,
            requirements,
            changes: Changes::new(alloc, circuit.first() as usize)?,
            failed: Vec::new(alloc),
            good: all_lanes().to_array(),
        })
    }

    /// The base's value of each variable, by its number; there is none of variable 0, which is false.
    pub fn base(&self) -> &[bool] {
        self.words.base()
    }

    /// Which literals a run has to meet, as the base does. Bits that they ask to be equal are changed together, and those that they ask
    /// to have one value are not changed.
    pub fn settle(&mut self, wanted: &[Lit]) -> Result<(), AllocError> {
        self.requirements.settle(self.circuit, wanted)
    }

    /// Runs with these free bits, and the base's elsewhere, in lane 0; in the other lanes some of these bits are changed. A bit that is
    /// to be equal to one of them follows it.
    pub fn run_near(&mut self, bits: &[Lit]) -> Result<(), AllocError> {
        self.words.reset();
        for bit in bits {
            self.draw(*bit);
        }
        for bit in bits {
            self.give(bit.variable)?;
        }
        self.run_waiting()?;
        self.judge()
    }

    /// Runs of these rows of free bits, one a lane: the first 256 of them. Lanes without a row run the base.
    pub fn run_rows(&mut self, rows: &[Vec<bool>]) -> Result<(), AllocError> {
        self.words.reset();
        for variable in 2..self.circuit.first() {
            let word = self.words.base_word(variable);
            self.changes.set_word(variable, word);
        }
        let count = rows.len().min(LANE_COUNT);
        for lane in 0..count {
            self.note_row(rows[lane].as_slice(), lane);
        }
        for variable in 2..self.circuit.first() {
            let word = self.changes.word(variable);
            self.put(variable, word)?;
        }
        self.run_waiting()?;
        self.judge()
    }

    /// The literals that are to be met and fail in lane 0.
    pub fn failed(&self) -> &[Lit] {
        self.failed.as_slice()
    }

    /// The lanes that meet all.
    pub fn good(&self) -> u64x4 {
        u64x4::from_array(self.good)
    }

    /// The lanes where a literal is true.
    pub fn word(&self, lit: Lit) -> u64x4 {
        lanes_of(self.words.words(), lit)
    }

    /// The variables whose values differ from the base's in some lane.
    pub fn touched(&self) -> &[u32] {
        self.words.touched()
    }

    /// The free bits of a lane, the first being that of variable 2.
    pub fn row(&self, alloc: Global, lane: usize) -> Result<Vec<bool>, AllocError>
        requires { lane < 256 }
    {
        let mut bits = Vec::with_capacity(alloc, self.circuit.first() as usize)?;
        for variable in 2..self.circuit.first() {
            let word = self.word(Lit {
                variable,
                negative: false,
            });
            bits.push(is_set(word, lane))?;
        }
        Ok(bits)
    }

    // A free bit is to have its value in lane 0, and in most others.
    fn draw(&mut self, bit: Lit) {
        let word = lanes_if(!bit.negative);
        let changed = match self.requirements.tie(bit.variable) {
            Tie::Fixed => no_lane(),
            _ => self.changes.some_lanes(),
        };
        self.changes.plan(bit.variable, word ^ changed);
    }

    // Gives a free bit its word. One that is to be equal to it takes the same, but for lane 0 where that has a value of its own.
    fn give(&mut self, variable: u32) -> Result<(), AllocError> {
        if !self.changes.take(variable) {
            return Ok(());
        }
        let word = self.changes.word(variable);
        self.put(variable, word)?;
        if let Tie::Mate(mate) = self.requirements.tie(variable) {
            let own = if self.changes.take(mate) {
                self.changes.word(mate)
            } else {
                word
            };
            self.put(mate, choose_word(one_lane(0), own, word))?;
        }
        Ok(())
    }

    // Notes the bits of a row in a lane.
    fn note_row(&mut self, row: &[bool], lane: usize)
        requires { lane < 256 }
    {
        let lanes = one_lane(lane);
        for place in 0..row.len() {
            let variable = low(place.wrapping_add(2));
            if row[place] != read(self.words.base(), place.wrapping_add(2), false) {
                let word = self.changes.word(variable);
                self.changes.set_word(variable, word ^ lanes);
            }
        }
    }

    // Gives a variable its word; where it had another, the gates that read it are to be run.
    #[inline(always)]
    fn put(&mut self, variable: u32, word: u64x4) -> Result<(), AllocError> {
        if self.words.put(variable, word)? {
            self.events.note(variable);
        }
        Ok(())
    }

    // Runs the gates that wait, in the order in which they were made: a gate reads only what stands before it.
    fn run_waiting(&mut self) -> Result<(), AllocError> {
        for word in 0..self.events.words() {
            for _ in 0..WORD {
                let Some(place) = self.events.next(word) else {
                    break;
                };
                self.run_gate(place)?;
            }
        }
        Ok(())
    }

    // Runs a gate.
    #[inline(always)]
    fn run_gate(&mut self, place: usize) -> Result<(), AllocError> {
        let circuit = self.circuit;
        if place < circuit.count() {
            let word = gate_word(self.words.words(), circuit.gate(place));
            self.put(circuit.first().wrapping_add(low(place)), word)?;
        }
        Ok(())
    }

    // Tests the runs by what is asked of them. The base meets it all, so only what differs can fail.
    fn judge(&mut self) -> Result<(), AllocError> {
        let mut good = all_lanes();
        self.failed.clear();
        for variable in self.words.touched() {
            if let Some(lit) = self.requirements.wanted(*variable) {
                let lanes = lanes_of(self.words.words(), lit);
                good = good & lanes;
                if lanes[0] % 2 == 0 {
                    self.failed.push(lit)?;
                }
            }
        }
        self.good = good.to_array();
        Ok(())
    }
}
