// Integer cells that move by a whole multiple of what a cell of the other program moves by: degrees and tenths of degrees.
use crate::proposal::Proposal;
use crate::sums::{can_be_written, group_of_both};
use plc_types::Value;
use seen_values::{Facts, Sort};
use std::alloc::AllocError;

// Of how many classes multiples are looked for.
const MOST_CLASSES: usize = 64;

// The greatest factor that sums of several cells of one type have, which are looked for elsewhere.
const MOST_ELSEWHERE: Value = 4;

// A cell, one of the other program, and how many times as far the first one goes.
#[derive(Clone, Copy)]
struct Scale {
    cell: usize,
    part: usize,
    factor: Value,
}

// How far the values of a class are apart.
fn span_of(facts: &Facts<'_>, class: usize) -> Value {
    match facts.signature(class) {
        Some(signature) => signature.high.wrapping_sub(signature.low),
        None => 0,
    }
}

// Whether a cell moves by this multiple of what another moves by, on all pairs.
fn moves_along(facts: &Facts<'_>, scale: Scale) -> bool {
    let seen = facts.seen;
    let (first, start) = (seen.value(0, scale.cell), seen.value(0, scale.part));
    for row in 0..seen.rows() {
        let moved = seen.value(row, scale.cell).wrapping_sub(first);
        let part = seen.value(row, scale.part).wrapping_sub(start);
        if moved != scale.factor.wrapping_mul(part) {
            return false;
        }
    }
    true
}

// The multiple that a class is of another, by how far both go: one that is above 1, and none that is found elsewhere.
fn factor_of(facts: &Facts<'_>, class: usize, other: usize) -> Option<Value> {
    let (whole, step) = (span_of(facts, class), span_of(facts, other));
    if step <= 0 || whole <= step || whole % step != 0 {
        return None;
    }
    let factor = whole / step;
    if facts.group(class) == facts.group(other) && factor <= MOST_ELSEWHERE {
        return None;
    }
    Some(factor)
}

// A cell of a class that is a multiple of one of another class and of the other program, with a constant added.
fn scale_of(facts: &Facts<'_>, class: usize, other: usize) -> Option<Scale> {
    let factor = factor_of(facts, class, other)?;
    let cell = facts.first(class);
    let part = facts.across(other, cell);
    if facts.side(part) == facts.side(cell) {
        return None;
    }
    let up = Scale { cell, part, factor };
    let factor = factor.wrapping_neg();
    let down = Scale { cell, part, factor };
    if moves_along(facts, up) {
        Some(up)
    } else if moves_along(facts, down) {
        Some(down)
    } else {
        None
    }
}

// The sum that says so, where its numbers can be written.
fn add_scale(
    facts: &Facts<'_>,
    group: u64,
    scale: Scale,
    found: &mut Vec<Proposal>,
) -> Result<(), AllocError> {
    let times = scale.factor.wrapping_mul(facts.seen.value(0, scale.part));
    let constant = facts.seen.value(0, scale.cell).wrapping_sub(times);
    if can_be_written(group, constant) && can_be_written(group, scale.factor) {
        let mut terms: Vec<(Value, usize)> = Vec::new(facts.alloc);
        terms.push((1, scale.cell))?;
        terms.push((scale.factor.wrapping_neg(), scale.part))?;
        found.push(Proposal::Sum { terms, constant })?;
    }
    Ok(())
}

// Whether a class has to be tied to the other program by a multiple, or may serve for that.
fn is_integer(facts: &Facts<'_>, class: usize) -> bool {
    facts.sort(class) == Sort::Integer && !facts.is_of_inputs(class)
}

// A class, and the first of the others of which it is a multiple.
fn add_class(
    facts: &mut Facts<'_>,
    classes: &[usize],
    class: usize,
    found: &mut Vec<Proposal>,
) -> Result<(), AllocError> {
    for other in classes.iter().take(MOST_CLASSES) {
        let are_tied = facts.is_tied(class) && facts.is_tied(*other);
        if are_tied || !is_integer(facts, *other) {
            continue;
        }
        if let Some(scale) = scale_of(facts, class, *other) {
            let (one, two) = (facts.group(class), facts.group(*other));
            let group = if one == two {
                one
            } else {
                group_of_both(one, two)
            };
            add_scale(facts, group, scale, found)?;
            facts.tie(class);
            facts.tie(*other);
            return Ok(());
        }
    }
    Ok(())
}

/// Integer cells that are, but for a constant, a multiple of one of the other program: one for each class of those that have no plain sums.
pub fn add_scaled(
    facts: &mut Facts<'_>,
    left: &[usize],
    found: &mut Vec<Proposal>,
) -> Result<(), AllocError> {
    for class in left.iter().take(MOST_CLASSES) {
        if is_integer(facts, *class) {
            add_class(facts, left, *class, found)?;
        }
    }
    Ok(())
}
