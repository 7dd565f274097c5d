// Bits of words: those that go with BOOL cells, and those that never change.
use crate::proposal::Proposal;
use plc_types::{Elementary, Value};
use seen_values::{Facts, Sort, key_of, mixed, number_of, type_of};
use std::alloc::AllocError;

// How many bits the words of a type have; 0 where it is none of words.
fn width_of(group: u64) -> u32 {
    match type_of(group) {
        Some(kind) if kind != Elementary::Bool && !kind.is_integer() => kind.width(),
        _ => 0,
    }
}

// The checksums of a bit on all pairs, and of its opposite.
fn sums_of(facts: &Facts<'_>, cell: usize, mask: Value) -> (u64, u64) {
    let mut sum = 0u64;
    let mut opposite = 0u64;
    for row in 0..facts.seen.rows() {
        let is_set = facts.seen.value(row, cell) & mask != 0;
        sum = mixed(sum, if is_set { 1 } else { 0 });
        opposite = mixed(opposite, if is_set { 0 } else { 1 });
    }
    (sum, opposite)
}

// The bits of a cell that had one value on all pairs, below so many.
fn constant_bits(facts: &Facts<'_>, cell: usize, whole: Value) -> Value {
    let first = facts.seen.value(0, cell);
    let mut changed: Value = 0;
    for row in 0..facts.seen.rows() {
        changed |= facts.seen.value(row, cell) ^ first;
    }
    whole & !changed
}

// A bit of a word, with the BOOL cells that go with it.
fn add_bit(
    facts: &mut Facts<'_>,
    class: usize,
    mask: Value,
    found: &mut Vec<Proposal>,
) -> Result<(), AllocError> {
    let cell = facts.first(class);
    let (sum, opposite) = sums_of(facts, cell, mask);
    let group = number_of(Elementary::Bool);
    let (flags, negated) = match facts.classes.find(key_of(group, sum)) {
        Some(flags) => (flags, false),
        None => match facts.classes.find(key_of(group, opposite)) {
            Some(flags) => (flags, true),
            None => return Ok(()),
        },
    };
    let flag = facts.across(flags, cell);
    found.push(Proposal::HasBit {
        flag,
        cell,
        mask,
        negated,
    })?;
    if facts.side(flag) != facts.side(cell) {
        facts.tie(class);
        facts.tie(flags);
    }
    Ok(())
}

/// The bits of words that go with BOOL cells, and for each word those that never changed.
pub fn add_bits(facts: &mut Facts<'_>, found: &mut Vec<Proposal>) -> Result<(), AllocError> {
    for class in 0..facts.classes.len() {
        let width = width_of(facts.group(class));
        if facts.sort(class) != Sort::Other || width == 0 || facts.is_of_inputs(class) {
            continue;
        }
        let cell = facts.first(class);
        let mut mask: Value = 1;
        let mut whole: Value = 0;
        for _ in 0..width {
            add_bit(facts, class, mask, found)?;
            whole |= mask;
            mask = mask.wrapping_mul(2);
        }
        let constant = constant_bits(facts, cell, whole);
        if constant != 0 {
            found.push(Proposal::Bits {
                cell,
                mask: constant,
                value: facts.seen.value(0, cell) & constant,
            })?;
        }
    }
    Ok(())
}
