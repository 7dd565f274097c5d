// Cells that follow one of the other program up to a bound, or its remainder or quotient by a number.
use crate::proposal::{Proposal, Shape};
use crate::sums::can_be_written;
use plc_types::Value;
use scan_model::Side;
use seen_values::{Classes, Facts, Sort, key_of, mixed_value};
use std::alloc::AllocError;

// How many columns are made of cells and numbers.
const MOST_COLUMNS: usize = 1_024;

// All shapes.
static SHAPES: [Shape; 4] = [
    Shape::Least,
    Shape::Greatest,
    Shape::Remainder,
    Shape::Quotient,
];

// What is made of the values of a cell on all pairs: checksums of how far each lies above the first and below it, and the first.
#[derive(Clone, Copy)]
struct Column {
    above: u64,
    below: u64,
    first: Value,
    is_constant: bool,
}

// A cell, a shape, and the number of this.
#[derive(Clone, Copy)]
struct Shaped {
    class: usize,
    cell: usize,
    shape: Shape,
    number: Value,
}

// What is made of a value; of a number that divides nothing, 0.
fn value_made(shape: Shape, number: Value, value: Value) -> Value {
    match shape {
        Shape::Least => value.min(number),
        Shape::Greatest => value.max(number),
        Shape::Remainder if number > 1 => value % number,
        Shape::Quotient if number > 1 => value / number,
        Shape::Remainder | Shape::Quotient => 0,
    }
}

fn column_of(facts: &Facts<'_>, made: Shaped) -> Column {
    let seen = facts.seen;
    let first = value_made(made.shape, made.number, seen.value(0, made.cell));
    let mut column = Column {
        above: 0,
        below: 0,
        first,
        is_constant: true,
    };
    for row in 0..seen.rows() {
        let value = value_made(made.shape, made.number, seen.value(row, made.cell));
        let above = value.wrapping_sub(first);
        let below = first.wrapping_sub(value);
        column.above = mixed_value(column.above, above);
        column.below = mixed_value(column.below, below);
        column.is_constant = column.is_constant && above == 0;
    }
    column
}

// The cell of the other program that has a key, or none.
fn cell_across(facts: &Facts<'_>, moved: &Classes, sum: u64, cell: usize) -> Option<usize> {
    let number = moved.find(key_of(0, sum))?;
    for class in moved.members(number) {
        let other = facts.across(*class, cell);
        if facts.side(other) != facts.side(cell) {
            return Some(other);
        }
    }
    None
}

// A cell that goes with what is made of another. Answers it where the two differ by a constant.
fn add_shaped(
    facts: &Facts<'_>,
    moved: &Classes,
    made: Shaped,
    found: &mut Vec<Proposal>,
) -> Result<Option<usize>, AllocError> {
    let column = column_of(facts, made);
    if column.is_constant {
        return Ok(None);
    }
    let (other, factor) = match cell_across(facts, moved, column.above, made.cell) {
        Some(other) => (other, -1),
        None => match cell_across(facts, moved, column.below, made.cell) {
            Some(other) => (other, 1),
            None => return Ok(None),
        },
    };
    let times = Value::wrapping_mul(factor, facts.seen.value(0, other));
    let constant = column.first.wrapping_add(times);
    if can_be_written(facts.group(made.class), constant) {
        found.push(Proposal::Shaped {
            cell: made.cell,
            shape: made.shape,
            number: made.number,
            other,
            factor,
            constant,
        })?;
    }
    Ok(if factor == -1 { Some(other) } else { None })
}

// Whether a shape with a number makes something new of the values from a least to a greatest one.
fn is_of_use(shape: Shape, number: Value, low: Value, high: Value) -> bool {
    match shape {
        Shape::Least | Shape::Greatest => low < number && number < high,
        Shape::Remainder | Shape::Quotient => low >= 0 && number > 1 && number <= high,
    }
}

// The cells that go with what is made of one by a number; where its quotient and its remainder do, also the sum that this makes.
fn add_for(
    facts: &Facts<'_>,
    moved: &Classes,
    class: usize,
    number: Value,
    found: &mut Vec<Proposal>,
) -> Result<(), AllocError> {
    let Some(signature) = facts.signature(class) else {
        return Ok(());
    };
    let cell = facts.first(class);
    let mut parts: (Option<usize>, Option<usize>) = (None, None);
    for shape in SHAPES.iter() {
        if !is_of_use(*shape, number, signature.low, signature.high) {
            continue;
        }
        let made = Shaped {
            class,
            cell,
            shape: *shape,
            number,
        };
        let other = add_shaped(facts, moved, made, found)?;
        match shape {
            Shape::Remainder => parts.0 = other,
            Shape::Quotient => parts.1 = other,
            Shape::Least | Shape::Greatest => {}
        }
    }
    if let (Some(remainder), Some(quotient)) = parts {
        let seen = facts.seen;
        let times = number.wrapping_mul(seen.value(0, quotient));
        let rest = seen.value(0, cell).wrapping_sub(seen.value(0, remainder));
        let mut terms: Vec<(Value, usize)> = Vec::new(facts.alloc);
        terms.push((1, cell))?;
        terms.push((number.wrapping_neg(), quotient))?;
        terms.push((-1, remainder))?;
        found.push(Proposal::Sum {
            terms,
            constant: rest.wrapping_sub(times),
        })?;
    }
    Ok(())
}

/// Integer cells of one program that go with the least of a cell of the other one and a number of the texts, or with the greatest, the
/// remainder or the quotient. Cells that have plain sums with the other program are left out.
pub fn add_shapes(
    facts: &Facts<'_>,
    left: &[usize],
    edges: &[Value],
    found: &mut Vec<Proposal>,
) -> Result<(), AllocError> {
    let mut moved = Classes::new(facts.alloc);
    for class in 0..facts.classes.len() {
        if facts.sort(class) == Sort::Integer
            && !facts.is_of_inputs(class)
            && let Some(signature) = facts.signature(class)
        {
            moved.add(key_of(0, signature.above), class)?;
        }
    }
    let mut columns = 0usize;
    for class in left {
        if facts.is_of_inputs(*class) || facts.is_tied(*class) {
            continue;
        }
        for edge in edges {
            for number in [*edge, edge.wrapping_add(1)] {
                let is_next = number != *edge && edges.contains(&number);
                if !is_next && columns < MOST_COLUMNS {
                    columns = columns.wrapping_add(1);
                    add_for(facts, &moved, *class, number, found)?;
                }
            }
        }
    }
    Ok(())
}
