// Values of cells with few values, and what was seen where a cell had one.
use proposal_forms::HeldValue;
use seen_values::{Classes, Facts, Seen, Sort, few_values, indicator};
use std::alloc::AllocError;

// A cell with more values guards nothing, and none of its values is compared with those of others.
const MOST_VALUES: usize = 16;

// How many guards there are.
const MOST_GUARDS: usize = 128;

// On how many pairs a guard holds, at least, for it to tell something what is seen there.
const LEAST_PAIRS: usize = 20;

/// A value of a cell, or, turned, all others; on how many pairs the cell had it, or one of them, and a checksum of these pairs.
#[derive(Clone, Copy)]
pub struct Guard {
    pub held: HeldValue,
    pub is_turned: bool,
    pub class: usize,
    pub sum: u64,
    pub seen: usize,
}

// On how many pairs a cell has a value.
fn count_of(facts: &Facts<'_>, held: HeldValue) -> usize {
    let mut count = 0usize;
    for row in 0..facts.seen.rows() {
        if facts.seen.value(row, held.cell) == held.value {
            count = count.saturating_add(1);
        }
    }
    count
}

/// Adds the values of the first cell of a class, where they are few.
pub fn add_values(
    facts: &Facts<'_>,
    class: usize,
    found: &mut Vec<Guard>,
) -> Result<(), AllocError> {
    let cell = facts.first(class);
    let Some(values) = few_values(facts.alloc, facts.seen, cell, MOST_VALUES)? else {
        return Ok(());
    };
    for value in &values {
        let held = HeldValue {
            cell,
            value: *value,
        };
        found.push(Guard {
            held,
            is_turned: false,
            class,
            sum: indicator(facts.seen, cell, *value, false),
            seen: count_of(facts, held),
        })?;
    }
    Ok(())
}

// Adds those values of a class that no earlier guard goes with.
fn add_guards(
    facts: &Facts<'_>,
    class: usize,
    sums: &mut Classes,
    found: &mut Vec<Guard>,
) -> Result<(), AllocError> {
    let mut values = Vec::new(facts.alloc);
    add_values(facts, class, &mut values)?;
    for guard in &values {
        let is_new = sums.find(guard.sum).is_none();
        sums.add(guard.sum, found.len())?;
        if is_new && guard.seen >= LEAST_PAIRS && found.len() < MOST_GUARDS {
            found.push(*guard)?;
        }
    }
    Ok(())
}

// Adds, of an integer cell that is no input, that it is away from where it was at the start.
fn add_away(
    facts: &Facts<'_>,
    class: usize,
    sums: &mut Classes,
    found: &mut Vec<Guard>,
) -> Result<(), AllocError> {
    let cell = facts.first(class);
    let held = HeldValue {
        cell,
        value: facts.seen.value(0, cell),
    };
    let sum = indicator(facts.seen, cell, held.value, true);
    let seen = facts.seen.rows().saturating_sub(count_of(facts, held));
    if sums.find(sum).is_none() && seen >= LEAST_PAIRS && found.len() < MOST_GUARDS {
        sums.add(sum, found.len())?;
        found.push(Guard {
            held,
            is_turned: true,
            class,
            sum,
            seen,
        })?;
    }
    Ok(())
}

/// The guards, each set of pairs once: values of enumerations and of integer cells first, then those of BOOL cells, and that integer
/// cells are away from where they were at the start.
pub fn guards_of(facts: &Facts<'_>) -> Result<Vec<Guard>, AllocError> {
    let mut sums = Classes::new(facts.alloc);
    let mut found = Vec::new(facts.alloc);
    for class in 0..facts.classes.len() {
        if facts.sort(class) == Sort::Enumeration && !facts.is_of_inputs(class) {
            add_guards(facts, class, &mut sums, &mut found)?;
        }
    }
    for class in 0..facts.classes.len() {
        if facts.sort(class) == Sort::Integer && !facts.is_of_inputs(class) {
            add_guards(facts, class, &mut sums, &mut found)?;
        }
    }
    for class in 0..facts.classes.len() {
        if facts.sort(class) == Sort::Bool && !facts.is_of_inputs(class) {
            add_guards(facts, class, &mut sums, &mut found)?;
        }
    }
    for class in 0..facts.classes.len() {
        if facts.sort(class) == Sort::Integer && !facts.is_of_inputs(class) {
            add_away(facts, class, &mut sums, &mut found)?;
        }
    }
    Ok(found)
}

/// What was seen on the pairs where a guard holds.
pub fn part_of(facts: &Facts<'_>, guard: &Guard) -> Result<Seen, AllocError> {
    let mut part = Seen::new(facts.alloc, facts.seen.width());
    for number in 0..facts.seen.rows() {
        let has = facts.seen.value(number, guard.held.cell) == guard.held.value;
        if has != guard.is_turned {
            part.add(facts.seen.row(number), &[])?;
        }
    }
    Ok(part)
}
