// Counts of BOOL cells that are TRUE.
use crate::cells::{Names, add_cell};
use crate::sums::add_sum_as;
use plc_types::{Elementary, Value};
use std::alloc::AllocError;

// How many terms have this factor.
fn count_of(terms: &[(Value, usize)], factor: Value) -> usize {
    terms.iter().filter(|term| term.0 == factor).count()
}

// Adds the cells that have this factor, with a word between them.
fn add_cells(
    names: &Names<'_>,
    terms: &[(Value, usize)],
    factor: Value,
    text: &mut String,
) -> Result<(), AllocError> {
    let mut is_first = true;
    for (times, cell) in terms.iter() {
        if *times != factor {
            continue;
        }
        if !is_first {
            text.push_str(" OR ")?;
        }
        is_first = false;
        add_cell(names, *cell, text)?;
    }
    Ok(())
}

// Adds that the one cell with this factor is TRUE where one of the others is.
fn add_one_of_others(
    names: &Names<'_>,
    terms: &[(Value, usize)],
    factor: Value,
    text: &mut String,
) -> Result<(), AllocError> {
    add_cells(names, terms, factor, text)?;
    text.push_str(" = (")?;
    add_cells(names, terms, factor.wrapping_neg(), text)?;
    text.push_str(")")
}

/// Adds that a sum of BOOL cells as 0 and 1 is a constant; where that is said by OR, so.
pub fn add_count(
    names: &Names<'_>,
    terms: &[(Value, usize)],
    constant: Value,
    text: &mut String,
) -> Result<(), AllocError> {
    let (ones, others) = (count_of(terms, 1), count_of(terms, -1));
    let are_units = ones.saturating_add(others) == terms.len();
    if are_units && constant == 0 && ones == 1 {
        return add_one_of_others(names, terms, 1, text);
    }
    if are_units && constant == 0 && others == 1 {
        return add_one_of_others(names, terms, -1, text);
    }
    if are_units && constant == 1 && others == 0 {
        return add_cells(names, terms, 1, text);
    }
    add_sum_as(names, terms, constant, Some(Elementary::Usint), text)
}
