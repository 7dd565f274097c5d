// Numbers that follow from one another, as bits for all runs.
use std::simd::u64x4;

/// Where the numbers stand: each state is 6364136223846793005 times the one before it, and 1442695040888963407.
#[derive(Clone, Copy)]
pub struct Random {
    state: u64,
}

impl Random {
    /// Where they begin.
    pub fn new() -> Random {
        Random { state: 1 }
    }

    // The next number. The lowest bits of states repeat soon, so the highest are joined to them.
    fn next(&mut self) -> u64 {
        let product = self.state.wrapping_mul(6_364_136_223_846_793_005);
        self.state = product.wrapping_add(1_442_695_040_888_963_407);
        self.state ^ (self.state >> 32)
    }

    /// A bit for each lane.
    pub fn lanes(&mut self) -> u64x4 {
        let first = self.next();
        let second = self.next();
        let third = self.next();
        let fourth = self.next();
        u64x4::from_array([first, second, third, fourth])
    }

    /// A number below `end`, or 0 where nothing is.
    pub fn below(&mut self, end: u64) -> u64 {
        if end == 0 { 0 } else { self.next() % end }
    }
}
