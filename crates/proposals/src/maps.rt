// Values of two cells that went together: which step number is which value of an enumeration.
use crate::guards::{Guard, add_values};
use proposal_forms::{HeldValue, Proposal};
use scan_model::Side;
use seen_values::{Classes, Facts, Sort};
use std::alloc::AllocError;

// How many pairs of values are said.
const MOST_MAPS: usize = 256;

// The values of integer cells, of enumerations and of words that are no inputs.
fn values_of(facts: &Facts<'_>) -> Result<Vec<Guard>, AllocError> {
    let mut values = Vec::new(facts.alloc);
    for class in 0..facts.classes.len() {
        if facts.sort(class) != Sort::Bool && !facts.is_of_inputs(class) {
            add_values(facts, class, &mut values)?;
        }
    }
    Ok(values)
}

// Whether two classes of one type have values that differ, or add up, by a constant, of which more is said elsewhere.
fn is_sum(facts: &Facts<'_>, one: usize, other: usize) -> bool {
    if facts.group(one) != facts.group(other) || facts.sort(one) != Sort::Integer {
        return false;
    }
    match (facts.signature(one), facts.signature(other)) {
        (Some(one), Some(other)) => one.above == other.above || one.above == other.below,
        _ => false,
    }
}

// The cell of a value in this program.
fn held_in(facts: &Facts<'_>, guard: &Guard, side: Side) -> Option<HeldValue> {
    match facts.member_of(guard.class, side) {
        Some(cell) => Some(HeldValue {
            cell,
            value: guard.held.value,
        }),
        None => None,
    }
}

// Two values that went together, the first of OLD and the second of NEW; nothing where the cells have a plain sum, nor where that is
// said the other way round.
fn add_two(
    facts: &Facts<'_>,
    one: &Guard,
    other: &Guard,
    found: &mut Vec<Proposal>,
) -> Result<(), AllocError> {
    if one.class == other.class || is_sum(facts, one.class, other.class) {
        return Ok(());
    }
    let is_said = one.class > other.class
        && facts.member_of(one.class, Side::New).is_some()
        && facts.member_of(other.class, Side::Old).is_some();
    if is_said {
        return Ok(());
    }
    if let Some(old) = held_in(facts, one, Side::Old)
        && let Some(new) = held_in(facts, other, Side::New)
    {
        found.push(Proposal::Together(old, new))?;
    }
    Ok(())
}

/// The values of integer cells and enumerations of OLD, each with those of NEW that went with it.
pub fn add_maps(facts: &Facts<'_>, found: &mut Vec<Proposal>) -> Result<(), AllocError> {
    let values = values_of(facts)?;
    let most = found.len().saturating_add(MOST_MAPS);
    let mut sums = Classes::new(facts.alloc);
    for (place, value) in values.iter().enumerate() {
        sums.add(value.sum, place)?;
    }
    for value in &values {
        let Some(number) = sums.find(value.sum) else {
            continue;
        };
        for place in sums.members(number) {
            if let Some(other) = values.get(*place)
                && found.len() < most
            {
                add_two(facts, value, other, found)?;
            }
        }
    }
    Ok(())
}
