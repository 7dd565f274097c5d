// BOOL cells that are TRUE exactly where another cell has a value.
use crate::proposal::Proposal;
use plc_types::Value;
use seen_values::{Facts, Sort, few_values, indicator, key_of};
use std::alloc::AllocError;

// A cell with more values is compared with none.
const MOST_VALUES: usize = 20;

// The number of the type BOOL among those of types.
const BOOL_GROUP: u64 = 1;

// The class of BOOL cells that are TRUE exactly where a cell has a value, or has not.
fn flag_class(facts: &Facts<'_>, cell: usize, value: Value, negated: bool) -> Option<usize> {
    let sum = indicator(facts.seen, cell, value, negated);
    facts.classes.find(key_of(BOOL_GROUP, sum))
}

fn add_flag(
    facts: &mut Facts<'_>,
    class: usize,
    value: Value,
    negated: bool,
    found: &mut Vec<Proposal>,
) -> Result<bool, AllocError> {
    let cell = facts.first(class);
    let Some(other) = flag_class(facts, cell, value, negated) else {
        return Ok(false);
    };
    let flag = facts.across(other, cell);
    found.push(Proposal::HasValue {
        flag,
        cell,
        value,
        negated,
    })?;
    if facts.side(facts.across(class, flag)) != facts.side(flag) {
        facts.tie(class);
        facts.tie(other);
    }
    Ok(true)
}

// The values of a class, each with the BOOL cells that go with it.
fn add_class(
    facts: &mut Facts<'_>,
    class: usize,
    found: &mut Vec<Proposal>,
) -> Result<(), AllocError> {
    let cell = facts.first(class);
    let Some(values) = few_values(facts.alloc, facts.seen, cell, MOST_VALUES)? else {
        return Ok(());
    };
    for value in &values {
        if !add_flag(facts, class, *value, false, found)? && values.len() > 2 {
            add_flag(facts, class, *value, true, found)?;
        }
    }
    Ok(())
}

/// Flags of values, where there are BOOL cells.
pub fn add_flags(facts: &mut Facts<'_>, found: &mut Vec<Proposal>) -> Result<(), AllocError> {
    for class in 0..facts.classes.len() {
        if facts.sort(class) != Sort::Bool {
            add_class(facts, class, found)?;
        }
    }
    Ok(())
}
