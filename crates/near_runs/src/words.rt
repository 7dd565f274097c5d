// The words of the variables: a bit for each run.
use clause_core::Gate;
use lane_sim::{choose_word, is_empty, lanes_if, lanes_of, no_lane};
use propagation_trail::{read, write};
use std::alloc::{AllocError, Global};
use std::simd::u64x4;

/// The values of the variables in all runs, and which of them differ from those of the base.
#[derive(Drop)]
pub(crate) struct Words {
    base: Vec<bool>,
    words: Vec<u64x4>,
    touched: Vec<u32>,
}

/// The word of a gate, from those of the variables.
#[inline(always)]
pub(crate) fn gate_word(words: &[u64x4], gate: Gate) -> u64x4 {
    match gate {
        Gate::And(a, b) => lanes_of(words, a) & lanes_of(words, b),
        Gate::Xor(a, b) => lanes_of(words, a) ^ lanes_of(words, b),
        Gate::Mux(c, a, b) => {
            choose_word(lanes_of(words, c), lanes_of(words, a), lanes_of(words, b))
        }
    }
}

impl Words {
    /// All runs are the base, which has these values.
    pub fn new(alloc: Global, base: Vec<bool>) -> Result<Words, AllocError> {
        let mut words = Vec::with_capacity(alloc, base.len())?;
        for value in base.as_slice() {
            words.push(lanes_if(*value))?;
        }
        let touched = Vec::with_capacity(alloc, base.len())?;
        Ok(Words {
            base,
            words,
            touched,
        })
    }

    /// The base's values.
    pub fn base(&self) -> &[bool] {
        self.base.as_slice()
    }

    /// The words.
    #[inline(always)]
    pub fn words(&self) -> &[u64x4] {
        self.words.as_slice()
    }

    /// The variables that differ from the base in some run.
    pub fn touched(&self) -> &[u32] {
        self.touched.as_slice()
    }

    /// The base's value of a variable, in all runs.
    #[inline(always)]
    pub fn base_word(&self, variable: u32) -> u64x4 {
        lanes_if(read(self.base.as_slice(), variable as usize, false))
    }

    /// All runs are the base again.
    pub fn reset(&mut self) {
        for place in 0..self.touched.len() {
            let variable = read(self.touched.as_slice(), place, 0);
            let word = self.base_word(variable);
            write(self.words.as_mut_slice(), variable as usize, word);
        }
        self.touched.clear();
    }

    /// Gives a variable its word, and says whether it had another.
    #[inline(always)]
    pub fn put(&mut self, variable: u32, word: u64x4) -> Result<bool, AllocError> {
        let old = read(self.words.as_slice(), variable as usize, no_lane());
        if is_empty(old ^ word) {
            return Ok(false);
        }
        if is_empty(old ^ self.base_word(variable)) {
            self.touched.push(variable)?;
        }
        write(self.words.as_mut_slice(), variable as usize, word);
        Ok(true)
    }
}
