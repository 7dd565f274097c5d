// Numbers drawn for all lanes at once, bit by bit.
use crate::free::{bit_of, put_bit};
use clause_core::Lit;
use lane_sim::{Random, all_lanes, choose_word, lanes_if, no_lane};
use plc_types::{Range, Value};
use query_formulas::CellShape;
use std::simd::u64x4;

// Draws any bits for a word.
fn draw_any(free: &mut [u64x4], random: &mut Random, word: &[Lit]) {
    for bit in word {
        put_bit(free, *bit, random.lanes(), all_lanes());
    }
}

// Draws a number up to a greatest one: as many bits as that has, the highest of which is taken back where the number is greater.
fn draw_up_to(free: &mut [u64x4], random: &mut Random, word: &[Lit], greatest: u128) {
    let mut rest = greatest;
    let mut greater = no_lane();
    for bit in word {
        let drawn = if rest == 0 { no_lane() } else { random.lanes() };
        put_bit(free, *bit, drawn, all_lanes());
        greater = choose_word(drawn ^ lanes_if(rest % 2 == 1), drawn, greater);
        if rest == 1 {
            put_bit(free, *bit, no_lane(), greater);
        }
        rest /= 2;
    }
}

// Adds a number to a word in all lanes.
fn add(free: &mut [u64x4], word: &[Lit], number: Value) {
    let mut rest = number.cast_unsigned();
    let mut carry = no_lane();
    for bit in word {
        let value = bit_of(free, *bit);
        let added = lanes_if(rest % 2 == 1);
        let sum = value ^ added;
        put_bit(free, *bit, sum ^ carry, all_lanes());
        carry = choose_word(sum, carry, value);
        rest /= 2;
    }
}

// Draws a number of a range for a word.
fn draw_within(free: &mut [u64x4], random: &mut Random, word: &[Lit], range: Range) {
    let span = range.high.wrapping_sub(range.low);
    draw_up_to(free, random, word, span.cast_unsigned());
    add(free, word, range.low);
}

/// Draws numbers for words, each in the range of its cell.
pub(crate) fn draw(
    free: &mut [u64x4],
    random: &mut Random,
    words: &[Vec<Lit>],
    cells: &[CellShape],
) {
    let count = words.len().min(cells.len());
    for i in 0..count {
        if cells[i].bounded {
            draw_within(free, random, words[i].as_slice(), cells[i].range);
        } else {
            draw_any(free, random, words[i].as_slice());
        }
    }
}
