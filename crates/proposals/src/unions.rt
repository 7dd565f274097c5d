// Values of cells that came exactly where one of several values of cells of the other program did: states as one program and the
// other one keep them.
use proposal_forms::{HeldValue, Proposal};
use scan_model::Side;
use seen_values::{Classes, Facts, Seen, Sort, few_values, mixed};
use std::alloc::AllocError;

// A cell with more values is left out.
const MOST_VALUES: usize = 16;

// How many values of cells of a program are looked at.
const MOST_HELD: usize = 192;

// How many values a line joins.
const MOST_PARTS: usize = 8;

// How many lines are proposed for the values of a program's cells.
const MOST_LINES: usize = 128;

// A value of a cell, and the pairs on which the cell has it, a bit for each.
#[derive(Drop)]
struct Place {
    held: HeldValue,
    class: usize,
    sort: Sort,
    words: Vec<u64>,
}

// The word of pairs from `first` on: of each whether a cell has a value; where `is_turned`, whether it has another.
fn word_of(seen: &Seen, held: HeldValue, first: usize, is_turned: bool) -> u64 {
    let mut word = 0u64;
    for offset in 0..64usize {
        let row = first.wrapping_add(offset);
        let has = seen.value(row, held.cell) == held.value;
        let bit = if row < seen.rows() && has != is_turned {
            1
        } else {
            0
        };
        word = word.wrapping_mul(2) | bit;
    }
    word
}

// The pairs on which a cell has a value, or on which it has another.
fn words_of(facts: &Facts<'_>, held: HeldValue, is_turned: bool) -> Result<Vec<u64>, AllocError> {
    let mut words = Vec::new(facts.alloc);
    let count = (facts.seen.rows() / 64).wrapping_add(1);
    for number in 0..count {
        let first = number.wrapping_mul(64);
        words.push(word_of(facts.seen, held, first, is_turned))?;
    }
    Ok(words)
}

fn word_at(words: &[u64], place: usize) -> u64 {
    if place < words.len() { words[place] } else { 0 }
}

// On how many pairs of one list those of another are found; none where some of these are not among the pairs of a third.
fn found_in(words: &[u64], left: &[u64], whole: &[u64]) -> u32 {
    let mut count = 0u32;
    for place in 0..words.len() {
        let word = words[place];
        if word & !word_at(whole, place) != 0 {
            return 0;
        }
        count = count.wrapping_add((word & word_at(left, place)).count_ones());
    }
    count
}

// Adds the values of a cell that no earlier cell's values go with.
fn add_values(
    facts: &Facts<'_>,
    class: usize,
    cell: usize,
    sums: &mut Classes,
    places: &mut Vec<Place>,
) -> Result<(), AllocError> {
    let Some(values) = few_values(facts.alloc, facts.seen, cell, MOST_VALUES)? else {
        return Ok(());
    };
    for value in &values {
        let held = HeldValue {
            cell,
            value: *value,
        };
        let words = words_of(facts, held, false)?;
        let mut sum = 0u64;
        for word in &words {
            sum = mixed(sum, *word);
        }
        if sums.find(sum).is_none() && places.len() < MOST_HELD {
            sums.add(sum, places.len())?;
            places.push(Place {
                held,
                class,
                sort: facts.sort(class),
                words,
            })?;
        }
    }
    Ok(())
}

// The cell of a class that is this program's own: no input, and without a twin in the other program.
fn own_cell(facts: &Facts<'_>, class: usize, side: Side) -> Option<usize> {
    for cell in facts.classes.members(class) {
        let is_input = *cell < facts.subjects.len() && facts.subjects[*cell].is_input;
        if facts.is_of(*cell, side) && !is_input && facts.twin(*cell).is_none() {
            return Some(*cell);
        }
    }
    None
}

// The values of the cells of a program that are no inputs and have few: those of numbers and names first, and then those of BOOL cells.
// Of its own cells alone, or of others too.
fn places_of(facts: &Facts<'_>, side: Side, are_own: bool) -> Result<Vec<Place>, AllocError> {
    let mut sums = Classes::new(facts.alloc);
    let mut places = Vec::new(facts.alloc);
    for are_flags in [false, true] {
        for class in 0..facts.classes.len() {
            let is_flag = facts.sort(class) == Sort::Bool;
            if is_flag != are_flags || facts.is_of_inputs(class) {
                continue;
            }
            let cell = match own_cell(facts, class, side) {
                Some(cell) => Some(cell),
                None if are_own => None,
                None => facts.member_of(class, side),
            };
            if let Some(cell) = cell {
                add_values(facts, class, cell, &mut sums, &mut places)?;
            }
        }
    }
    Ok(places)
}

// The values that have most of the pairs that are left, again and again, until none is left; none where that does not end soon.
fn cover(
    facts: &Facts<'_>,
    whole: &[u64],
    places: &[Place],
) -> Result<Option<Vec<HeldValue>>, AllocError> {
    let mut left = Vec::from_slice(facts.alloc, whole)?;
    let mut parts = Vec::new(facts.alloc);
    for _ in 0..MOST_PARTS {
        let mut most = 0u32;
        let mut best = 0usize;
        for (number, place) in places.iter().enumerate() {
            let count = found_in(place.words.as_slice(), left.as_slice(), whole);
            if count > most {
                most = count;
                best = number;
            }
        }
        let Some(place) = places.get(best) else {
            return Ok(None);
        };
        if most == 0 {
            return Ok(None);
        }
        parts.push(place.held)?;
        for number in 0..left.len() {
            left[number] &= !word_at(place.words.as_slice(), number);
        }
        if left.iter().all(|word| *word == 0) {
            return Ok(Some(parts));
        }
    }
    Ok(None)
}

// How many values there are, or so many that none of them would be taken.
fn count_of(parts: &Option<Vec<HeldValue>>) -> usize {
    match parts {
        Some(parts) => parts.len(),
        None => usize::MAX,
    }
}

// The line for a value: the values that make it, or those that make that it is another; none where one value does, which is said
// elsewhere. Answers whether something makes it.
fn add_for(
    facts: &Facts<'_>,
    held: HeldValue,
    places: &[Place],
    found: &mut Vec<Proposal>,
) -> Result<bool, AllocError> {
    let whole = words_of(facts, held, false)?;
    let with = cover(facts, whole.as_slice(), places)?;
    let others = words_of(facts, held, true)?;
    let without = cover(facts, others.as_slice(), places)?;
    let is_turned = count_of(&without) < count_of(&with);
    let is_said = count_of(&with) == 1 || count_of(&without) == 1;
    let parts = if is_turned { without } else { with };
    match parts {
        Some(parts) => {
            if !is_said {
                found.push(Proposal::OneOf {
                    held,
                    parts,
                    is_turned,
                })?;
            }
            Ok(true)
        }
        None => Ok(false),
    }
}

/// The values of a program's own cells, each with values of cells of the other one that make it, of its own cells where these do.
/// Cells that are equal to an own one of the other program are left out.
pub fn add_unions(
    facts: &mut Facts<'_>,
    side: Side,
    other: Side,
    found: &mut Vec<Proposal>,
) -> Result<(), AllocError> {
    let most = found.len().saturating_add(MOST_LINES);
    let targets = places_of(facts, side, true)?;
    let own = places_of(facts, other, true)?;
    let all = places_of(facts, other, false)?;
    for target in &targets {
        let is_said = target.sort == Sort::Bool && target.held.value == 0;
        if is_said || found.len() >= most || own_cell(facts, target.class, other).is_some() {
            continue;
        }
        let is_made = add_for(facts, target.held, own.as_slice(), found)?
            || add_for(facts, target.held, all.as_slice(), found)?;
        if is_made && target.sort == Sort::Bool {
            facts.tie(target.class);
        }
    }
    Ok(())
}
