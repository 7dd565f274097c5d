// The words of the free bits: the word of variable 2 stands first.
ghost use Rattle.std.specs.Prelude.{◌<◌};

use crate::scans::{Scanned, lanes_of};
use clause_core::Lit;
use lane_sim::{all_lanes, choose_word, is_set, lanes_if, no_lane};
use plc_types::Value;
use query_formulas::CellShape;
use std::alloc::{AllocError, Global};
use std::simd::u64x4;

/// The free bits of a lane.
pub(crate) fn lane_bits(alloc: Global, free: &[u64x4], lane: usize) -> Result<Vec<bool>, AllocError>
    requires { lane < 256 }
{
    let mut bits = Vec::new(alloc);
    for word in free {
        bits.push(is_set(*word, lane))?;
    }
    Ok(bits)
}

/// The values of a free bit.
pub(crate) fn bit_of(free: &[u64x4], bit: Lit) -> u64x4 {
    let place = (bit.variable as usize).wrapping_sub(2);
    if place < free.len() {
        free[place]
    } else {
        no_lane()
    }
}

/// Gives a free bit the values of a word in some lanes.
pub(crate) fn put_bit(free: &mut [u64x4], bit: Lit, value: u64x4, lanes: u64x4) {
    let place = (bit.variable as usize).wrapping_sub(2);
    if place < free.len() {
        free[place] = choose_word(lanes, value, free[place]);
    }
}

// Gives a word of free bits a number in some lanes.
fn put_number(free: &mut [u64x4], word: &[Lit], number: Value, lanes: u64x4) {
    let mut bits = number.cast_unsigned();
    for bit in word {
        put_bit(free, *bit, lanes_if(bits % 2 == 1), lanes);
        bits /= 2;
    }
}

/// Gives words of free bits their numbers in some lanes.
pub(crate) fn put_numbers(free: &mut [u64x4], words: &[Vec<Lit>], numbers: &[Value], lanes: u64x4) {
    let count = words.len().min(numbers.len());
    for i in 0..count {
        put_number(free, words[i].as_slice(), numbers[i], lanes);
    }
}

/// Gives words of free bits the first values of their cells, in all lanes.
pub(crate) fn put_first(free: &mut [u64x4], words: &[Vec<Lit>], cells: &[CellShape]) {
    let count = words.len().min(cells.len());
    for i in 0..count {
        put_number(free, words[i].as_slice(), cells[i].initial, all_lanes());
    }
}

// Gives free bits the values of literals in some lanes.
fn take_word(free: &mut [u64x4], scanned: &Scanned, bits: &[Lit], lits: &[Lit], lanes: u64x4) {
    let count = bits.len().min(lits.len());
    for i in 0..count {
        put_bit(free, bits[i], lanes_of(scanned, lits[i]), lanes);
    }
}

/// Gives the free bits of cells the values of words of literals in some lanes.
pub(crate) fn take_words(
    free: &mut [u64x4],
    scanned: &Scanned,
    cells: &[Vec<Lit>],
    lits: &[Vec<Lit>],
    lanes: u64x4,
) {
    let count = cells.len().min(lits.len());
    for i in 0..count {
        take_word(
            free,
            scanned,
            cells[i].as_slice(),
            lits[i].as_slice(),
            lanes,
        );
    }
}
