// Sums of integer cells, and counts of BOOL cells.
use crate::proposal::Proposal;
use plc_types::{Elementary, Value};
use scan_model::Side;
use seen_values::{
    Affine, Classes, Facts, Signature, Sort, affine_relations, key_of, number_of, type_of,
};
use std::alloc::AllocError;

// Of how many cells of a type sums are looked for.
const MOST_CELLS: usize = 64;

/// Whether a number can be written where values have this integer type.
pub fn can_be_written(group: u64, number: Value) -> bool {
    let most: Value = match type_of(group) {
        Some(Elementary::Sint) => 127,
        Some(Elementary::Int) => 32_767,
        Some(Elementary::Dint) => 2_147_483_647,
        Some(Elementary::Lint) => 9_223_372_036_854_775_807,
        Some(Elementary::Usint) => 255,
        Some(Elementary::Uint) => 65_535,
        Some(Elementary::Ulint) => 18_446_744_073_709_551_615,
        _ => 4_294_967_295,
    };
    number <= most && number >= -most
}

// Whether the values of a type have 64 bits.
fn is_wide(group: u64) -> bool {
    match type_of(group) {
        Some(kind) => kind.width() == 64,
        None => false,
    }
}

/// The number of the type in which cells of these two are added, where neither will do: DINT, or LINT where one of them has 64 bits.
pub fn group_of_both(one: u64, other: u64) -> u64 {
    number_of(if is_wide(one) || is_wide(other) {
        Elementary::Lint
    } else {
        Elementary::Dint
    })
}

// A cell, and a multiple of an earlier one, give a constant.
fn add_two(
    facts: &Facts<'_>,
    group: u64,
    cell: usize,
    other: usize,
    factor: Value,
    found: &mut Vec<Proposal>,
) -> Result<(), AllocError> {
    let times = factor.wrapping_mul(facts.seen.value(0, other));
    let constant = facts.seen.value(0, cell).wrapping_add(times);
    if !can_be_written(group, constant) {
        return Ok(());
    }
    let mut terms: Vec<(Value, usize)> = Vec::new(facts.alloc);
    terms.push((1, cell))?;
    terms.push((factor, other))?;
    found.push(Proposal::Sum { terms, constant })?;
    Ok(())
}

// An earlier class whose cells differ from those of this one by a constant, or give one with them; and the factor.
fn earlier(moved: &Classes, group: u64, signature: Signature) -> Option<(usize, Value)> {
    if let Some(number) = moved.find(key_of(group, signature.above)) {
        return Some((number, -1));
    }
    match moved.find(key_of(group, signature.below)) {
        Some(number) => Some((number, 1)),
        None => None,
    }
}

/// Differences and sums of two integer cells; the others are put into a list for sums of more.
pub fn add_sums_of_two(
    facts: &mut Facts<'_>,
    left: &mut Vec<usize>,
    found: &mut Vec<Proposal>,
) -> Result<(), AllocError> {
    let mut moved = Classes::new(facts.alloc);
    for class in 0..facts.classes.len() {
        if facts.sort(class) != Sort::Integer {
            continue;
        }
        let Some(signature) = facts.signature(class) else {
            continue;
        };
        let group = facts.group(class);
        match earlier(&moved, group, signature) {
            Some((number, factor)) => {
                let other = match moved.members(number).first() {
                    Some(other) => *other,
                    None => class,
                };
                let first = facts.first(other);
                let cell = facts.across(class, first);
                add_two(facts, group, cell, first, factor, found)?;
            }
            None => left.push(class)?,
        }
        moved.add(key_of(group, signature.above), class)?;
    }
    Ok(())
}

/// Whether the values of a class are numbers, where words count as such.
pub fn is_number(facts: &Facts<'_>, class: usize) -> bool {
    match facts.sort(class) {
        Sort::Integer => true,
        Sort::Other => type_of(facts.group(class)).is_some(),
        Sort::Bool | Sort::Enumeration => false,
    }
}

// The number of the type of a cell.
fn group_of_cell(facts: &Facts<'_>, cell: usize) -> u64 {
    match facts.subjects.get(cell) {
        Some(subject) => subject.group,
        None => 0,
    }
}

// A class of another type and the other program whose cells differ from those of a class by a constant, or give one with them.
fn of_other_type(facts: &Facts<'_>, moved: &Classes, class: usize, sum: u64) -> Option<usize> {
    let cell = facts.first(class);
    let number = moved.find(key_of(0, sum))?;
    for other in moved.members(number) {
        let across = facts.across(*other, cell);
        if facts.group(*other) != facts.group(class) && facts.side(across) != facts.side(cell) {
            return Some(across);
        }
    }
    None
}

/// Differences and sums of two cells of different types, one of each program.
pub fn add_sums_of_types(
    facts: &mut Facts<'_>,
    found: &mut Vec<Proposal>,
) -> Result<(), AllocError> {
    let mut moved = Classes::new(facts.alloc);
    for class in 0..facts.classes.len() {
        if !is_number(facts, class) || facts.is_of_inputs(class) {
            continue;
        }
        let Some(signature) = facts.signature(class) else {
            continue;
        };
        let (other, factor) = match of_other_type(facts, &moved, class, signature.above) {
            Some(other) => (Some(other), -1),
            None => (of_other_type(facts, &moved, class, signature.below), 1),
        };
        if let Some(other) = other {
            let cell = facts.across(class, other);
            let group = group_of_both(facts.group(class), group_of_cell(facts, other));
            add_two(facts, group, cell, other, factor, found)?;
            facts.tie(class);
        }
        moved.add(key_of(0, signature.above), class)?;
    }
    Ok(())
}

// The first cells of classes of one type.
fn cells_of(facts: &Facts<'_>, classes: &[usize], group: u64) -> Result<Vec<usize>, AllocError> {
    let mut cells = Vec::new(facts.alloc);
    for class in classes {
        if facts.group(*class) == group && cells.len() < MOST_CELLS {
            cells.push(facts.first(*class))?;
        }
    }
    Ok(cells)
}

/// Sums of more cells of one integer type.
pub fn add_sums(
    facts: &Facts<'_>,
    left: &[usize],
    found: &mut Vec<Proposal>,
) -> Result<(), AllocError> {
    for kind in Elementary::all() {
        let group = number_of(*kind);
        if !kind.is_integer() {
            continue;
        }
        let cells = cells_of(facts, left, group)?;
        for affine in affine_relations(facts.alloc, facts.seen, cells.as_slice())? {
            if can_be_written(group, affine.constant) {
                found.push(Proposal::Sum {
                    terms: affine.terms,
                    constant: affine.constant,
                })?;
            }
        }
    }
    Ok(())
}

// BOOL cells of a program that are no inputs, one of each class.
fn flags_of(facts: &Facts<'_>, side: Side) -> Result<Vec<usize>, AllocError> {
    let mut cells = Vec::new(facts.alloc);
    for class in 0..facts.classes.len() {
        if facts.sort(class) != Sort::Bool || facts.is_of_inputs(class) {
            continue;
        }
        if let Some(cell) = facts.member_of(class, side)
            && cells.len() < MOST_CELLS
        {
            cells.push(cell)?;
        }
    }
    Ok(cells)
}

// The cell of OLD that is equal to a cell, where there is one, else the cell.
fn in_old(facts: &Facts<'_>, cell: usize) -> usize {
    let Some(class) = facts.class_of(cell) else {
        return cell;
    };
    match facts.member_of(class, Side::Old) {
        Some(old) => old,
        None => cell,
    }
}

// Whether each of these terms is among others, with cells of OLD in the place of cells that are equal to them.
fn are_among(facts: &Facts<'_>, terms: &[(Value, usize)], others: &[(Value, usize)]) -> bool {
    for (factor, cell) in terms.iter() {
        let old = in_old(facts, *cell);
        if !others.iter().any(|term| term.0 == *factor && term.1 == old) {
            return false;
        }
    }
    true
}

// Whether a count was proposed already, of cells that are equal to these.
fn is_counted(facts: &Facts<'_>, affine: &Affine, found: &[Proposal]) -> bool {
    for proposal in found {
        if let Proposal::Count { terms, constant } = proposal
            && *constant == affine.constant
            && terms.len() == affine.terms.len()
            && are_among(facts, affine.terms.as_slice(), terms.as_slice())
        {
            return true;
        }
    }
    false
}

/// Counts of BOOL cells of one program that are TRUE, but for those that were proposed of equal cells. Those of two cells are opposite.
pub fn add_counts(
    facts: &Facts<'_>,
    side: Side,
    found: &mut Vec<Proposal>,
) -> Result<(), AllocError> {
    let cells = flags_of(facts, side)?;
    for affine in affine_relations(facts.alloc, facts.seen, cells.as_slice())? {
        if affine.terms.len() > 2 && !is_counted(facts, &affine, found.as_slice()) {
            found.push(Proposal::Count {
                terms: affine.terms,
                constant: affine.constant,
            })?;
        }
    }
    Ok(())
}
