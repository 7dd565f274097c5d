// Sets of runs, a bit for each.
ghost use Rattle.std.specs.Prelude.{◌<◌, IfSome};

use crate::lanes::{is_set, literal_word};
use clause_core::Lit;
use std::simd::u64x4;

/// How many runs there are.
pub const LANE_COUNT: usize = 256;

/// Every lane.
#[inline(always)]
pub fn all_lanes() -> u64x4 {
    u64x4::splat(u64::MAX)
}

/// No lane.
#[inline(always)]
pub fn no_lane() -> u64x4 {
    u64x4::splat(0)
}

/// Every lane where a test holds, else none.
#[inline(always)]
pub fn lanes_if(holds: bool) -> u64x4 {
    if holds { all_lanes() } else { no_lane() }
}

/// One lane alone.
pub fn one_lane(lane: usize) -> u64x4
    requires { lane < 256 }
{
    let mut numbers = [0u64; 4];
    numbers[lane / 64] = 1 << (lane % 64);
    u64x4::from_array(numbers)
}

/// Whether a word is set in no lane.
#[inline(always)]
pub fn is_empty(word: u64x4) -> bool {
    word[0] | word[1] | word[2] | word[3] == 0
}

/// The first lane that is set.
pub fn first_lane(word: u64x4) -> Option<usize>
    ensures { IfSome result (λ lane. lane < 256) }
{
    for lane in 0..LANE_COUNT {
        if is_set(word, lane) {
            return Some(lane);
        }
    }
    None
}

/// The lanes where a literal is true, from the words of the variables; none where its variable has no word.
#[inline(always)]
pub fn lanes_of(words: &[u64x4], lit: Lit) -> u64x4 {
    if (lit.variable as usize) < words.len() {
        literal_word(words, lit)
    } else {
        no_lane()
    }
}
