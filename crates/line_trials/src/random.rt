// Numbers that follow from a seed (SplitMix64).
use plc_types::{Range, Value};

/// Where the numbers stand.
#[derive(Clone, Copy)]
pub struct Random {
    state: u64,
}

impl Random {
    pub fn new(seed: u64) -> Random {
        Random { state: seed }
    }

    /// The next number.
    pub fn next(&mut self) -> u64 {
        self.state = self.state.wrapping_add(0x9e37_79b9_7f4a_7c15);
        let first = (self.state ^ (self.state >> 30)).wrapping_mul(0xbf58_476d_1ce4_e5b9);
        let second = (first ^ (first >> 27)).wrapping_mul(0x94d0_49bb_1331_11eb);
        second ^ (second >> 31)
    }

    /// A number below `end`, or 0 where nothing is.
    pub fn below(&mut self, end: u64) -> u64 {
        if end == 0 { 0 } else { self.next() % end }
    }

    // One of the numbers, or the number before or behind it; 0 where there is none.
    fn near(&mut self, numbers: &[Value]) -> Value {
        let place = self.below(numbers.len() as u64);
        let beside = match self.below(4) {
            0 => -1,
            1 => 1,
            _ => 0,
        };
        match numbers.get(place as usize) {
            Some(number) => number.wrapping_add(beside),
            None => 0,
        }
    }

    // The least or the greatest number of a range, 0 or 1.
    fn edge(&mut self, range: Range) -> Value {
        match self.below(4) {
            0 => range.low,
            1 => range.high,
            2 => 0,
            _ => 1,
        }
    }

    // Any number of a range.
    fn inside(&mut self, range: Range) -> Value {
        let count = range.high.wrapping_sub(range.low).wrapping_add(1);
        // A range of 64 bits has one number more than a count of 64 bits tells.
        let offset = match u64::try_from(count) {
            Ok(count) => self.below(count),
            Err(_) => self.next(),
        };
        range.low.wrapping_add(offset as Value)
    }

    /// A number of a range: an edge, a number of the texts or one beside it, or any, each about as often.
    pub fn value(&mut self, range: Range, numbers: &[Value]) -> Value {
        let value = match self.below(3) {
            0 => self.edge(range),
            1 => self.near(numbers),
            _ => self.inside(range),
        };
        value.max(range.low).min(range.high)
    }
}
