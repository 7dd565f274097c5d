// Pairs near another: some bits are changed in some lanes.
use lane_sim::{Random, all_lanes, is_empty};
use std::simd::u64x4;

/// How many times bits are changed.
const CHANGES: u32 = 64;

// Whether two words are equal or opposite in all lanes.
fn are_alike(a: u64x4, b: u64x4) -> bool {
    is_empty(a ^ b) || is_empty(a ^ b ^ all_lanes())
}

// Changes a bit in some lanes, and with it each that was equal or opposite to it in all runs, unless it was the same in all.
fn change(free: &mut [u64x4], seen: &[u64x4], place: usize, lanes: u64x4) {
    if place >= seen.len() || place >= free.len() {
        return;
    }
    let word = seen[place];
    if are_alike(word, all_lanes()) {
        free[place] = free[place] ^ lanes;
        return;
    }
    let count = seen.len().min(free.len());
    for other in 0..count {
        if are_alike(seen[other], word) {
            free[other] = free[other] ^ lanes;
        }
    }
}

// About one in 32 of the lanes from 64 on.
fn few_lanes(random: &mut Random) -> u64x4 {
    let mut lanes = u64x4::from_array([0, u64::MAX, u64::MAX, u64::MAX]);
    for _half in 0..5 {
        lanes = lanes & random.lanes();
    }
    lanes
}

/// Changes bits in the lanes from 64 on, a few in each; `seen` has the words of the bits in runs.
pub(crate) fn change_some(free: &mut [u64x4], seen: &[u64x4], random: &mut Random) {
    for _change in 0..CHANGES {
        let place = random.below(seen.len() as u64) as usize;
        let lanes = few_lanes(random);
        change(free, seen, place, lanes);
    }
}
