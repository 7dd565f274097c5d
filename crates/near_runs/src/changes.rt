// The words that free bits are to have, before they are given to them.
use lane_sim::{Random, no_lane};
use propagation_trail::{read, write};
use std::alloc::{AllocError, Global};
use std::simd::u64x4;

/// Words of free bits that are to be changed, by their variables.
#[derive(Drop)]
pub(crate) struct Changes {
    random: Random,
    words: Vec<u64x4>,
    // the variables that have a word here
    planned: Vec<bool>,
}

impl Changes {
    /// No bit is to be changed; those that may be are the variables below `first`.
    pub fn new(alloc: Global, first: usize) -> Result<Changes, AllocError> {
        Ok(Changes {
            random: Random::new(),
            words: vec![in alloc; no_lane(); first]?,
            planned: vec![in alloc; false; first]?,
        })
    }

    /// Some lanes, but never the first: a quarter of the first half, an eighth of the others.
    pub fn some_lanes(&mut self) -> u64x4 {
        let half = self.random.lanes();
        let quarter = half & self.random.lanes();
        let first_half = u64x4::from_array([u64::MAX - 1, u64::MAX, 0, 0]);
        let others = self.random.lanes() & u64x4::from_array([0, 0, u64::MAX, u64::MAX]);
        quarter & (first_half | others)
    }

    /// Notes a word for a variable.
    #[inline(always)]
    pub fn set_word(&mut self, variable: u32, word: u64x4) {
        write(self.words.as_mut_slice(), variable as usize, word);
    }

    /// A variable is to be given a word.
    #[inline(always)]
    pub fn plan(&mut self, variable: u32, word: u64x4) {
        self.set_word(variable, word);
        write(self.planned.as_mut_slice(), variable as usize, true);
    }

    /// The word that was noted for a variable.
    #[inline(always)]
    pub fn word(&self, variable: u32) -> u64x4 {
        read(self.words.as_slice(), variable as usize, no_lane())
    }

    /// Whether a variable is to be given a word. From now on it is not.
    #[inline(always)]
    pub fn take(&mut self, variable: u32) -> bool {
        let is_planned = read(self.planned.as_slice(), variable as usize, false);
        write(self.planned.as_mut_slice(), variable as usize, false);
        is_planned
    }
}
