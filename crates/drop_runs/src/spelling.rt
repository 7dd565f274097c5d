// The numbers that words of free bits spell.
use clause_core::Lit;
use operations::wrap_value;
use pair_circuits::{PairParts, Product};
use plc_types::{Elementary, Value};
use queries::{Decoded, Row};
use query_formulas::CellShape;
use std::alloc::{AllocError, Global};

// The value of a free bit, the first being that of variable 2.
fn value_of(bits: &[bool], bit: Lit) -> bool {
    let place = (bit.variable as usize).wrapping_sub(2);
    bits.get(place).copied().unwrap_or(false)
}

// The number of a type that a word spells, of which at most 64 bits are read.
fn number(bits: &[bool], kind: Elementary, word: &[Lit]) -> Value {
    let mut number = 0u64;
    let count = word.len().min(64);
    for i in 0..count {
        if value_of(bits, word[i]) {
            number |= 1 << i;
        }
    }
    wrap_value(kind, Value::from(number))
}

// The numbers that the words of cells spell.
fn numbers(
    alloc: Global,
    bits: &[bool],
    cells: &[CellShape],
    words: &[Vec<Lit>],
) -> Result<Vec<Value>, AllocError> {
    let mut numbers = Vec::new(alloc);
    let count = cells.len().min(words.len());
    for i in 0..count {
        numbers.push(number(bits, cells[i].kind, words[i].as_slice()))?;
    }
    Ok(numbers)
}

/// The pair and the row that free bits spell, the first being that of variable 2.
pub fn spelled(
    alloc: Global,
    parts: &PairParts,
    product: &Product,
    bits: &[bool],
) -> Result<Decoded, AllocError> {
    let pair = &product.pair;
    let old = numbers(alloc, bits, parts.old.as_slice(), pair.old.as_slice())?;
    let new = numbers(alloc, bits, parts.new.as_slice(), pair.new.as_slice())?;
    let lines = parts.lines.as_slice();
    let inputs = numbers(alloc, bits, lines, product.inputs.as_slice())?;
    let mut row = Row::new(alloc);
    for number in inputs.as_slice() {
        row.push(*number)?;
    }
    let mut rows = Vec::new(alloc);
    rows.push(row)?;
    Ok(Decoded { old, new, rows })
}
