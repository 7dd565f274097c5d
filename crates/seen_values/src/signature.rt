// Signatures: numbers by which columns of values are told apart without being compared.
use crate::seen::Seen;
use plc_types::Value;
use std::alloc::{AllocError, Global};

/// What is kept of the values of a cell on all pairs: checksums of the values, of what each leaves to 1, of how far
/// each lies above the first, and of how far it lies below; and the first, the least and the greatest value.
#[derive(Clone, Copy)]
pub struct Signature {
    pub values: u64,
    pub opposite: u64,
    pub above: u64,
    pub below: u64,
    pub first: Value,
    pub low: Value,
    pub high: Value,
}

/// A checksum with one number more.
pub fn mixed(sum: u64, number: u64) -> u64 {
    (sum.rotate_left(5) ^ number).wrapping_mul(0x517c_c1b7_2722_0a95)
}

// The last 64 bits of a value, or of the difference of two. What differs by 2^64 is told apart by the trials.
fn last_bits(value: Value) -> u64 {
    (value.cast_unsigned() & 0xffff_ffff_ffff_ffff) as u64
}

/// A checksum with one value more, or with the difference of two.
pub fn mixed_value(sum: u64, value: Value) -> u64 {
    mixed(sum, last_bits(value))
}

impl Signature {
    // The signature of a cell that was seen to hold nothing but its first value.
    fn begun(value: Value) -> Signature {
        Signature {
            values: 0,
            opposite: 0,
            above: 0,
            below: 0,
            first: value,
            low: value,
            high: value,
        }
    }

    // With one value more.
    fn with(self, value: Value) -> Signature {
        let above = value.wrapping_sub(self.first);
        let below = self.first.wrapping_sub(value);
        Signature {
            values: mixed_value(self.values, value),
            opposite: mixed_value(self.opposite, Value::wrapping_sub(1, value)),
            above: mixed_value(self.above, above),
            below: mixed_value(self.below, below),
            first: self.first,
            low: self.low.min(value),
            high: self.high.max(value),
        }
    }

    /// Whether the cell kept one value.
    pub fn is_constant(&self) -> bool {
        self.low == self.high
    }
}

fn add_row(list: &mut [Signature], row: &[Value]) {
    for place in 0..list.len() {
        if place < row.len() {
            list[place] = list[place].with(row[place]);
        }
    }
}

/// The signature of each cell.
pub fn signatures(alloc: Global, seen: &Seen) -> Result<Vec<Signature>, AllocError> {
    let mut list = Vec::new(alloc);
    for value in seen.row(0) {
        list.push(Signature::begun(*value))?;
    }
    for number in 0..seen.rows() {
        add_row(list.as_mut_slice(), seen.row(number));
    }
    Ok(list)
}
