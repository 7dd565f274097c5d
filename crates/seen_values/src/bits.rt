// BOOL cells as words of bits, a bit for each pair.
use crate::seen::Seen;
use crate::signature::mixed;
use std::alloc::{AllocError, Global};

/// The values of a BOOL cell, 64 pairs a word.
#[derive(Drop)]
pub struct Bits {
    words: Vec<u64>,
}

/// Whether bit `row` of a word is the value on that pair.
fn word_at(seen: &Seen, cell: usize, first: usize) -> u64 {
    let mut word = 0u64;
    for offset in 0..64usize {
        let value = seen.value(first.wrapping_add(offset), cell);
        word = word.wrapping_mul(2) | if value == 1 { 1 } else { 0 };
    }
    word
}

/// The bits of a cell.
pub fn bits_of(alloc: Global, seen: &Seen, cell: usize) -> Result<Bits, AllocError> {
    let mut words = Vec::new(alloc);
    for number in 0..seen.rows() / 64 {
        words.push(word_at(seen, cell, number.wrapping_mul(64)))?;
    }
    if seen.rows() % 64 > 0 {
        let full = seen.rows() / 64;
        words.push(word_at(seen, cell, full.wrapping_mul(64)))?;
    }
    Ok(Bits { words })
}

impl Bits {
    fn word(&self, place: usize) -> u64 {
        if place < self.words.len() {
            self.words[place]
        } else {
            0
        }
    }

    /// The checksum of these bits.
    pub fn sum(&self) -> u64 {
        let mut sum = 0u64;
        for word in &self.words {
            sum = mixed(sum, *word);
        }
        sum
    }

    /// The checksum of the bits that both have.
    pub fn sum_of_both(&self, other: &Bits) -> u64 {
        let mut sum = 0u64;
        for place in 0..self.words.len() {
            sum = mixed(sum, self.word(place) & other.word(place));
        }
        sum
    }

    /// The checksum of the bits that one of the two has.
    pub fn sum_of_either(&self, other: &Bits) -> u64 {
        let mut sum = 0u64;
        for place in 0..self.words.len() {
            sum = mixed(sum, self.word(place) | other.word(place));
        }
        sum
    }

    /// The checksum of the bits that these have and the others have not.
    pub fn sum_of_first_alone(&self, other: &Bits) -> u64 {
        let mut sum = 0u64;
        for place in 0..self.words.len() {
            sum = mixed(sum, self.word(place) & !other.word(place));
        }
        sum
    }

    /// Whether no pair has both.
    pub fn is_apart_from(&self, other: &Bits) -> bool {
        for place in 0..self.words.len() {
            if self.word(place) & other.word(place) != 0 {
                return false;
            }
        }
        true
    }
}
