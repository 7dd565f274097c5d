// Bounds of integer cells, widened to numbers that stand in the texts.
use crate::proposal::Proposal;
use plc_types::{Range, Value};
use seen_values::{Facts, Sort};
use std::alloc::AllocError;

// The cell is at least a number that is at most its least value: the greatest of these, or the nth below it, counted from 0.
fn add_at_least(
    cell: usize,
    value: Value,
    range: Range,
    edges: &[Value],
    nth: usize,
    found: &mut Vec<Proposal>,
) -> Result<(), AllocError> {
    let count = edges.iter().filter(|edge| **edge <= value).count();
    if nth < count
        && let Some(edge) = edges.get(count.wrapping_sub(nth.wrapping_add(1)))
        && *edge > range.low
    {
        found.push(Proposal::AtLeast {
            cell,
            bound: *edge,
            seen: value,
        })?;
    }
    Ok(())
}

// The cell is at most a number that is at least its greatest value: the least of these, or the nth above it.
fn add_at_most(
    cell: usize,
    value: Value,
    range: Range,
    edges: &[Value],
    nth: usize,
    found: &mut Vec<Proposal>,
) -> Result<(), AllocError> {
    let count = edges.iter().filter(|edge| **edge < value).count();
    if let Some(edge) = edges.get(count.wrapping_add(nth))
        && *edge < range.high
    {
        found.push(Proposal::AtMost {
            cell,
            bound: *edge,
            seen: value,
        })?;
    }
    Ok(())
}

/// Of each integer cell that is no input, that it is at least the number next below its least value, and at most the one next above
/// its greatest; by `nth` the numbers next to these are taken. The numbers rise.
pub fn add_bounds(
    facts: &Facts<'_>,
    edges: &[Value],
    nth: usize,
    found: &mut Vec<Proposal>,
) -> Result<(), AllocError> {
    for class in 0..facts.classes.len() {
        if facts.sort(class) != Sort::Integer || facts.is_of_inputs(class) {
            continue;
        }
        let cell = facts.first(class);
        let Some(signature) = facts.signature(class) else {
            continue;
        };
        if let Some(subject) = facts.subjects.get(cell) {
            add_at_least(cell, signature.low, subject.range, edges, nth, found)?;
            add_at_most(cell, signature.high, subject.range, edges, nth, found)?;
        }
    }
    Ok(())
}

// Of a cell that it goes no further than it was seen to go, on each side on which the number behind that stands in the texts and it does
// not itself: a counter that runs round stays below the number by which it is divided.
fn add_beside(
    cell: usize,
    low: Value,
    high: Value,
    range: Range,
    edges: &[Value],
    found: &mut Vec<Proposal>,
) -> Result<(), AllocError> {
    let below = low.wrapping_sub(1);
    if low > range.low && edges.contains(&below) && !edges.contains(&low) {
        found.push(Proposal::AtLeast {
            cell,
            bound: low,
            seen: low,
        })?;
    }
    let above = high.wrapping_add(1);
    if high < range.high && edges.contains(&above) && !edges.contains(&high) {
        found.push(Proposal::AtMost {
            cell,
            bound: high,
            seen: high,
        })?;
    }
    Ok(())
}

/// Of each integer cell that is no input, that it is never at the numbers of the texts next to which it was seen.
pub fn add_bounds_beside(
    facts: &Facts<'_>,
    edges: &[Value],
    found: &mut Vec<Proposal>,
) -> Result<(), AllocError> {
    for class in 0..facts.classes.len() {
        if facts.sort(class) != Sort::Integer || facts.is_of_inputs(class) {
            continue;
        }
        let cell = facts.first(class);
        if let Some(signature) = facts.signature(class)
            && let Some(subject) = facts.subjects.get(cell)
        {
            let (low, high) = (signature.low, signature.high);
            add_beside(cell, low, high, subject.range, edges, found)?;
        }
    }
    Ok(())
}
