// Equal cells, and opposite ones.
use crate::proposal::Proposal;
use scan_model::Side;
use seen_values::{Facts, Sort, key_of};
use std::alloc::AllocError;

// Whether the twin of a cell is in a class, and the cell comes behind it.
fn comes_behind_twin(facts: &Facts<'_>, class: usize, cell: usize) -> bool {
    match facts.twin(cell) {
        Some(twin) => twin < cell && facts.is_in(class, twin),
        None => false,
    }
}

// The cell that stands for a class: one whose twin is in the class too and that is no input, else one whose twin is in the class,
// else the first.
fn standing_for(facts: &Facts<'_>, class: usize) -> usize {
    let members = facts.classes.members(class);
    let mut chosen = facts.first(class);
    let mut has_twin = false;
    for cell in members {
        let Some(twin) = facts.twin(*cell) else {
            continue;
        };
        if !facts.is_in(class, twin) {
            continue;
        }
        let is_input = *cell < facts.subjects.len() && facts.subjects[*cell].is_input;
        if !is_input {
            return *cell;
        }
        if !has_twin {
            chosen = *cell;
            has_twin = true;
        }
    }
    chosen
}

// The cell to which another is equal: one of the other program, its twin first.
fn partner(facts: &Facts<'_>, class: usize, chosen: usize, cell: usize) -> usize {
    if facts.side(chosen) != facts.side(cell) {
        return chosen;
    }
    match facts.twin(chosen) {
        Some(twin) if facts.is_in(class, twin) => twin,
        _ => facts.across(class, cell),
    }
}

// The two cells that are said to be equal for the sake of a member of a class, the lesser first. Cells of one path are equal by a
// candidate of the product, so nothing is said for the twin of a cell for which it is, or which stands for the class.
fn said_for(facts: &Facts<'_>, class: usize, chosen: usize, cell: usize) -> Option<(usize, usize)> {
    if cell == chosen || facts.twin(cell) == Some(chosen) || comes_behind_twin(facts, class, cell) {
        return None;
    }
    let other = partner(facts, class, chosen, cell);
    let other = if other == cell { chosen } else { other };
    Some((cell.min(other), cell.max(other)))
}

// The last cell of a class that is this program's own: no input, and without a twin in the other program.
fn last_own(facts: &Facts<'_>, class: usize, side: Side) -> Option<usize> {
    let mut last = None;
    for cell in facts.classes.members(class) {
        let is_input = *cell < facts.subjects.len() && facts.subjects[*cell].is_input;
        if facts.is_of(*cell, side) && !is_input && facts.twin(*cell).is_none() {
            last = Some(*cell);
        }
    }
    last
}

// The member of a class for which nothing more has to be said where the last own cells are equal: what is said for members makes a
// tree, and with those two cells one branch of it is said twice.
fn spared(facts: &Facts<'_>, class: usize, chosen: usize) -> Option<usize> {
    let old = last_own(facts, class, Side::Old)?;
    let new = last_own(facts, class, Side::New)?;
    match said_for(facts, class, chosen, old) {
        Some((_, second)) if second == new => Some(old),
        _ => Some(new),
    }
}

// The members of a class are equal to one that stands for it, but for one that is spared.
fn add_class(
    facts: &Facts<'_>,
    class: usize,
    is_second: bool,
    found: &mut Vec<Proposal>,
) -> Result<(), AllocError> {
    let chosen = standing_for(facts, class);
    let spared = if is_second {
        spared(facts, class, chosen)
    } else {
        None
    };
    for cell in facts.classes.members(class) {
        if spared == Some(*cell) {
            continue;
        }
        if let Some((first, second)) = said_for(facts, class, chosen, *cell) {
            found.push(Proposal::Equal(first, second))?;
        }
    }
    Ok(())
}

/// Of each class the last cells that are the programs' own: what a program keeps stands behind what it takes in and gives out.
pub fn add_last_own(facts: &Facts<'_>, found: &mut Vec<Proposal>) -> Result<(), AllocError> {
    for class in 0..facts.classes.len() {
        let old = last_own(facts, class, Side::Old);
        if let (Some(old), Some(new)) = (old, last_own(facts, class, Side::New)) {
            found.push(Proposal::Equal(old, new))?;
        }
    }
    Ok(())
}

/// Equal cells, and which classes are tied to the other program by that. In a second round, behind the last own cells, nothing is said
/// that follows from these.
pub fn add_equal(
    facts: &mut Facts<'_>,
    is_second: bool,
    found: &mut Vec<Proposal>,
) -> Result<(), AllocError> {
    for class in 0..facts.classes.len() {
        add_class(facts, class, is_second, found)?;
        if facts.member_of(class, Side::Old).is_some()
            && facts.member_of(class, Side::New).is_some()
        {
            facts.tie(class);
        }
    }
    Ok(())
}

// The class whose cells are TRUE exactly where those of this one are not.
fn opposite_class(facts: &Facts<'_>, class: usize) -> Option<usize> {
    if facts.sort(class) != Sort::Bool {
        return None;
    }
    let signature = facts.signature(class)?;
    facts
        .classes
        .find(key_of(facts.group(class), signature.opposite))
}

/// Opposite classes, each two of them once.
pub fn add_opposite(facts: &mut Facts<'_>, found: &mut Vec<Proposal>) -> Result<(), AllocError> {
    for class in 0..facts.classes.len() {
        let Some(other) = opposite_class(facts, class) else {
            continue;
        };
        if other <= class {
            continue;
        }
        let first = facts.first(class);
        let second = facts.across(other, first);
        found.push(Proposal::Opposite(first, second))?;
        if facts.side(first) != facts.side(second) {
            facts.tie(class);
            facts.tie(other);
        }
    }
    Ok(())
}
