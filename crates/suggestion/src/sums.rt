// Sums of multiples of cells.
use crate::cells::{Names, add_cell_as, add_number, kind_at, range_at};
use plc_types::{Elementary, Value};
use proposal_forms::Shape;
use std::alloc::AllocError;

// Adds a sign before all but the first part of a sum.
fn add_sign(is_first: bool, text: &mut String) -> Result<(), AllocError> {
    if is_first {
        Ok(())
    } else {
        text.push_str(" + ")
    }
}

// Adds the terms whose factors have this sign, each cell as a value of a type, and a number where it is above 0; or 0.
fn add_side(
    names: &Names<'_>,
    terms: &[(Value, usize)],
    sign: Value,
    constant: Value,
    kind: Option<Elementary>,
    text: &mut String,
) -> Result<(), AllocError> {
    let mut is_first = true;
    for (factor, cell) in terms.iter() {
        let times = factor.wrapping_mul(sign);
        if times <= 0 {
            continue;
        }
        add_sign(is_first, text)?;
        is_first = false;
        if times > 1 {
            add_number(names, times, text)?;
            text.push_str(" * ")?;
        }
        add_cell_as(names, *cell, kind, text)?;
    }
    if constant > 0 || is_first {
        add_sign(is_first, text)?;
        add_number(names, constant.max(0), text)?;
    }
    Ok(())
}

// The type in which cells of several types are added: that of the integer cell that goes furthest, or DINT where it lacks values of
// others, or LINT where one of them has 64 bits; none where all are of one type.
fn common_kind(names: &Names<'_>, terms: &[(Value, usize)]) -> Option<Elementary> {
    let mut kind = None;
    let mut high: Value = 0;
    let mut low: Value = 0;
    let mut are_alike = true;
    let mut is_wide = false;
    let mut first = None;
    for (_, cell) in terms.iter() {
        let other = kind_at(names, *cell)?;
        are_alike = are_alike && (first.is_none() || first == Some(other));
        is_wide = is_wide || other.width() == 64;
        first = Some(other);
        let range = range_at(names, *cell);
        low = low.min(range.low);
        if range.high > high {
            high = range.high;
            kind = first;
        }
    }
    if are_alike {
        return None;
    }
    match kind {
        Some(kind) if kind.is_integer() && (kind.is_signed() || low >= 0) => Some(kind),
        _ if is_wide => Some(Elementary::Lint),
        _ => Some(Elementary::Dint),
    }
}

/// Adds that a sum is a constant, with what has a factor below 0 on the other side; each cell as a value of a type, where one is given.
pub fn add_sum_as(
    names: &Names<'_>,
    terms: &[(Value, usize)],
    constant: Value,
    kind: Option<Elementary>,
    text: &mut String,
) -> Result<(), AllocError> {
    add_side(names, terms, 1, constant.wrapping_neg(), kind, text)?;
    text.push_str(" = ")?;
    add_side(names, terms, -1, constant, kind, text)
}

/// The same, where cells may be of several types.
pub fn add_sum(
    names: &Names<'_>,
    terms: &[(Value, usize)],
    constant: Value,
    text: &mut String,
) -> Result<(), AllocError> {
    add_sum_as(names, terms, constant, common_kind(names, terms), text)
}

// Adds what is made of a cell and a number.
fn add_made(
    names: &Names<'_>,
    cell: usize,
    shape: Shape,
    number: Value,
    kind: Option<Elementary>,
    text: &mut String,
) -> Result<(), AllocError> {
    let (before, between, behind) = match shape {
        Shape::Least => ("MIN(", ", ", ")"),
        Shape::Greatest => ("MAX(", ", ", ")"),
        Shape::Remainder => ("", " MOD ", ""),
        Shape::Quotient => ("", " / ", ""),
    };
    text.push_str(before)?;
    add_cell_as(names, cell, kind, text)?;
    text.push_str(between)?;
    add_number(names, number, text)?;
    text.push_str(behind)
}

/// Adds that what is made of a cell and a number, and a multiple of another cell, give a constant.
pub fn add_shaped(
    names: &Names<'_>,
    made: (usize, Shape, Value),
    other: (Value, usize),
    constant: Value,
    text: &mut String,
) -> Result<(), AllocError> {
    let (cell, shape, number) = made;
    let kind = common_kind(names, &[(1, cell), other]);
    add_made(names, cell, shape, number, kind, text)?;
    let rest = [other];
    if constant < 0 || other.0 > 0 {
        text.push_str(" + ")?;
        add_side(names, &rest, 1, constant.wrapping_neg(), kind, text)?;
    }
    text.push_str(" = ")?;
    add_side(names, &rest, -1, constant, kind, text)
}
