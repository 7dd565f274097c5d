// Which gates are to be run: those that read a variable whose value has changed.
use crate::lists::Lists;
use clause_core::{Gate, Lit};
use gates::Circuit;
use propagation_trail::{low, read, write};
use std::alloc::{AllocError, Global};

/// The gates that read each variable, and a bit for each gate, set while it is to be run.
#[derive(Drop)]
pub(crate) struct Events {
    readers: Lists,
    waiting: Vec<u64>,
}

// Adds an operand of a gate.
fn add_operand(pairs: &mut Vec<(u32, u32)>, operand: Lit, place: usize) -> Result<(), AllocError> {
    pairs.push((operand.variable, low(place)))?;
    Ok(())
}

// The operands of all gates, each with the place of its gate.
fn operands(alloc: Global, circuit: &Circuit) -> Result<Vec<(u32, u32)>, AllocError> {
    let mut pairs = Vec::new(alloc);
    for place in 0..circuit.count() {
        match circuit.gate(place) {
            Gate::And(a, b) | Gate::Xor(a, b) => {
                add_operand(&mut pairs, a, place)?;
                add_operand(&mut pairs, b, place)?;
            }
            Gate::Mux(c, a, b) => {
                add_operand(&mut pairs, c, place)?;
                add_operand(&mut pairs, a, place)?;
                add_operand(&mut pairs, b, place)?;
            }
        }
    }
    Ok(pairs)
}

impl Events {
    /// No gate is to be run.
    pub fn new(alloc: Global, circuit: &Circuit) -> Result<Events, AllocError> {
        let variables = (circuit.first() as usize).saturating_add(circuit.count());
        let pairs = operands(alloc, circuit)?;
        Ok(Events {
            readers: Lists::new(alloc, variables, pairs.as_slice())?,
            waiting: vec![in alloc; 0u64; circuit.count() / 64 + 1]?,
        })
    }

    /// The gates that read a variable are to be run.
    #[inline(always)]
    pub fn note(&mut self, variable: u32) {
        for gate in self.readers.of(variable as usize) {
            let place = (*gate / 64) as usize;
            let bits = read(self.waiting.as_slice(), place, 0);
            write(self.waiting.as_mut_slice(), place, bits | 1 << (*gate % 64));
        }
    }

    /// How many words of 64 gates there are.
    pub fn words(&self) -> usize {
        self.waiting.len()
    }

    /// The first gate of a word that is to be run, which then waits no more.
    #[inline(always)]
    pub fn next(&mut self, word: usize) -> Option<usize> {
        let bits = read(self.waiting.as_slice(), word, 0);
        if bits == 0 {
            return None;
        }
        write(
            self.waiting.as_mut_slice(),
            word,
            bits & bits.wrapping_sub(1),
        );
        Some(
            word.wrapping_mul(64)
                .wrapping_add(bits.trailing_zeros() as usize),
        )
    }
}
