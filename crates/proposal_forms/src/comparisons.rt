// Comparisons: BOOL cells that are TRUE where a number is great enough, and numbers that stay close to one another.
use crate::proposal::Proposal;
use plc_types::Value;
use scan_model::Side;
use seen_values::{Facts, Sort};
use std::alloc::AllocError;

// How far two cells may move against each other, for it to be said that they stay close.
const MOST_APART: Value = 2;

// How many cells of a type are compared with one another.
const MOST_CELLS: usize = 48;

// The least and the greatest value of a cell on the pairs on which a BOOL cell is TRUE, and on those on which it is not.
#[derive(Clone, Copy)]
struct Sides {
    low: Value,
    high: Value,
    low_without: Value,
    high_without: Value,
}

fn sides_of(facts: &Facts<'_>, flag: usize, cell: usize) -> Sides {
    let mut sides = Sides {
        low: Value::MAX,
        high: Value::MIN,
        low_without: Value::MAX,
        high_without: Value::MIN,
    };
    for row in 0..facts.seen.rows() {
        let value = facts.seen.value(row, cell);
        if facts.seen.value(row, flag) == 1 {
            sides.low = sides.low.min(value);
            sides.high = sides.high.max(value);
        } else {
            sides.low_without = sides.low_without.min(value);
            sides.high_without = sides.high_without.max(value);
        }
        if sides.low <= sides.high_without && sides.low_without <= sides.high {
            return sides;
        }
    }
    sides
}

// The least number of the texts, or the one behind it, that is above one number and at most another; else the last.
fn bound_between(edges: &[Value], below: Value, most: Value) -> Value {
    for edge in edges {
        if *edge > below && *edge <= most {
            return *edge;
        }
        let next = edge.wrapping_add(1);
        if next > below && next <= most {
            return next;
        }
    }
    most
}

// A number that a cell reaches exactly where a BOOL cell is TRUE, or is not.
fn add_reached(
    facts: &mut Facts<'_>,
    edges: &[Value],
    flags: usize,
    flag: usize,
    cell: usize,
    found: &mut Vec<Proposal>,
) -> Result<(), AllocError> {
    let sides = sides_of(facts, flag, cell);
    let (negated, below, most) = if sides.low > sides.high_without {
        (false, sides.high_without, sides.low)
    } else if sides.low_without > sides.high {
        (true, sides.high, sides.low_without)
    } else {
        return Ok(());
    };
    let bound = bound_between(edges, below, most);
    facts.tie(flags);
    found.push(Proposal::Reaches {
        flag,
        cell,
        bound,
        negated,
    })?;
    Ok(())
}

/// BOOL cells of a program that nothing ties to the other one, each with the integer cells of that one that reach a number exactly where
/// it is TRUE.
pub fn add_reaches(
    facts: &mut Facts<'_>,
    edges: &[Value],
    side: Side,
    other: Side,
    found: &mut Vec<Proposal>,
) -> Result<(), AllocError> {
    for flags in 0..facts.classes.len() {
        if facts.sort(flags) != Sort::Bool || facts.is_tied(flags) || facts.is_of_inputs(flags) {
            continue;
        }
        let Some(flag) = facts.member_of(flags, side) else {
            continue;
        };
        for class in 0..facts.classes.len() {
            if facts.sort(class) == Sort::Integer
                && !facts.is_of_inputs(class)
                && let Some(cell) = facts.member_of(class, other)
            {
                add_reached(facts, edges, flags, flag, cell, found)?;
            }
        }
    }
    Ok(())
}

// The least and the greatest difference of two cells, as long as they are close to each other.
fn range_apart(facts: &Facts<'_>, cell: usize, other: usize) -> Option<(Value, Value)> {
    let seen = facts.seen;
    let first = seen.value(0, cell).wrapping_sub(seen.value(0, other));
    let (mut least, mut most) = (first, first);
    for row in 0..seen.rows() {
        let apart = seen.value(row, cell).wrapping_sub(seen.value(row, other));
        least = least.min(apart);
        most = most.max(apart);
        if most.wrapping_sub(least) > MOST_APART {
            return None;
        }
    }
    Some((least, most))
}

/// Two integer cells of one type that stay close to each other while they go further.
pub fn add_apart(facts: &Facts<'_>, found: &mut Vec<Proposal>) -> Result<(), AllocError> {
    let mut classes: Vec<usize> = Vec::new(facts.alloc);
    for class in 0..facts.classes.len() {
        if let Some(signature) = facts.signature(class)
            && facts.sort(class) == Sort::Integer
            && !facts.is_of_inputs(class)
            && signature.high.wrapping_sub(signature.low) > MOST_APART
            && classes.len() < MOST_CELLS
        {
            classes.push(class)?;
        }
    }
    for (place, class) in classes.iter().enumerate() {
        for earlier in classes.iter().take(place) {
            if facts.group(*class) != facts.group(*earlier) {
                continue;
            }
            let cell = facts.first(*earlier);
            let other = facts.across(*class, cell);
            if let Some((least, most)) = range_apart(facts, cell, other)
                && least < most
            {
                for (bound, is_least) in [(least, true), (most, false)] {
                    found.push(Proposal::Apart {
                        cell,
                        other,
                        bound,
                        is_least,
                    })?;
                }
            }
        }
    }
    Ok(())
}
