// BOOL cells of one program of which not both are TRUE.
use crate::proposal::Proposal;
use scan_model::Side;
use seen_values::{Bits, Facts, Sort, bits_of};
use std::alloc::AllocError;

// How many cells of a program are compared.
const MOST_CELLS: usize = 64;

// On how many pairs two cells would have met that have nothing to do with each other, at least, for it to tell something that they
// never did.
const LEAST_MEETINGS: usize = 20;

// A cell, its values, on how many pairs it is TRUE, and whether a cell of OLD has the same values.
#[derive(Drop)]
struct Flag {
    cell: usize,
    bits: Bits,
    seen: usize,
    is_in_old: bool,
}

// On how many pairs a cell is TRUE.
fn seen_of(facts: &Facts<'_>, cell: usize) -> usize {
    let mut count = 0usize;
    for row in 0..facts.seen.rows() {
        if facts.seen.value(row, cell) == 1 {
            count = count.saturating_add(1);
        }
    }
    count
}

// The BOOL cells of a program that are no inputs, one of each class.
fn flags_of(facts: &Facts<'_>, side: Side) -> Result<Vec<Flag>, AllocError> {
    let mut flags = Vec::new(facts.alloc);
    for class in 0..facts.classes.len() {
        if facts.sort(class) != Sort::Bool
            || facts.is_of_inputs(class)
            || flags.len() >= MOST_CELLS
        {
            continue;
        }
        if let Some(cell) = facts.member_of(class, side) {
            flags.push(Flag {
                cell,
                bits: bits_of(facts.alloc, facts.seen, cell)?,
                seen: seen_of(facts, cell),
                is_in_old: facts.member_of(class, Side::Old).is_some(),
            })?;
        }
    }
    Ok(flags)
}

// The number of the small chart of whose step a cell is, or 0.
fn chart_of(facts: &Facts<'_>, cell: usize) -> usize {
    match facts.subjects.get(cell) {
        Some(subject) => subject.chart,
        None => 0,
    }
}

// Whether nothing is proposed of two cells: they are of steps of one chart that is small, whose steps the product compares by itself.
fn are_compared(facts: &Facts<'_>, one: usize, other: usize) -> bool {
    let chart = chart_of(facts, one);
    chart > 0 && chart == chart_of(facts, other)
}

// Whether it tells something that two cells never met: each was TRUE so often that they would have. Of opposite cells more is said.
fn is_telling(facts: &Facts<'_>, one: &Flag, other: &Flag) -> bool {
    let pairs = facts.seen.rows();
    one.seen.saturating_add(other.seen) < pairs
        && one.seen.saturating_mul(other.seen) >= pairs.saturating_mul(LEAST_MEETINGS)
}

// Two cells, unless they are of steps that the product compares by itself, or two cells of OLD have their values.
fn add_two(
    facts: &Facts<'_>,
    side: Side,
    one: &Flag,
    other: &Flag,
    found: &mut Vec<Proposal>,
) -> Result<(), AllocError> {
    if side == Side::New && one.is_in_old && other.is_in_old {
        return Ok(());
    }
    if is_telling(facts, one, other)
        && !are_compared(facts, one.cell, other.cell)
        && one.bits.is_apart_from(&other.bits)
    {
        found.push(Proposal::NotBoth {
            first: one.cell,
            second: other.cell,
            seen: (one.seen, other.seen),
        })?;
    }
    Ok(())
}

/// Each two BOOL cells of a program that were never TRUE together, though each was so often that they would have met by chance.
pub fn add_exclusive(
    facts: &Facts<'_>,
    side: Side,
    found: &mut Vec<Proposal>,
) -> Result<(), AllocError> {
    let flags = flags_of(facts, side)?;
    for (place, one) in flags.iter().enumerate() {
        for (behind, other) in flags.iter().enumerate() {
            if place < behind {
                add_two(facts, side, one, other, found)?;
            }
        }
    }
    Ok(())
}
