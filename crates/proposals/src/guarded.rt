// Lines that held where a guard did, though not on all pairs.
use crate::guards::{Guard, guards_of, part_of};
use plc_types::Value;
use proposal_forms::{GuardedLine, HeldValue, Proposal, can_be_written};
use scan_model::Side;
use seen_values::{Facts, Seen, Signature, Sort, facts_of, indicator};
use std::alloc::AllocError;

// How many lines are proposed.
const MOST_LINES: usize = 256;

// How strong lines are, from 0: equalities, sums, values, bounds; and behind these the same of cells that are tied without a guard.
const RANKS: usize = 8;

// A line, and how strong it is.
#[derive(Clone, Copy)]
struct Ranked {
    rank: usize,
    guard: Guard,
    line: GuardedLine,
}

// A guard, what was seen on all pairs, and what was seen where the guard holds.
#[derive(Clone, Copy)]
struct Look<'a> {
    guard: &'a Guard,
    all: &'a Facts<'a>,
    part: &'a Facts<'a>,
}

// Whether something ties a cell to the other program on all pairs.
fn is_tied(facts: &Facts<'_>, cell: usize) -> bool {
    match facts.class_of(cell) {
        Some(class) => facts.is_tied(class),
        None => true,
    }
}

// Whether a cell stands for its class on all pairs, in its program.
fn is_standing(facts: &Facts<'_>, cell: usize) -> bool {
    match facts.class_of(cell) {
        Some(class) => facts.member_of(class, facts.side(cell)) == Some(cell),
        None => false,
    }
}

fn push(
    look: &Look<'_>,
    form: usize,
    are_tied: bool,
    line: GuardedLine,
    found: &mut Vec<Ranked>,
) -> Result<(), AllocError> {
    let rank = if are_tied {
        form.saturating_add(RANKS / 2)
    } else {
        form
    };
    found.push(Ranked {
        rank,
        guard: *look.guard,
        line,
    })?;
    Ok(())
}

// Whether it is said of a cell that it equals one of the other program: of all of NEW, and of those of OLD but the first.
fn is_said(look: &Look<'_>, class: usize, cell: usize) -> bool {
    look.all.is_of(cell, Side::New) || look.part.member_of(class, Side::Old) != Some(cell)
}

// Cells of a class that are equal under the guard alone.
fn add_equal(look: &Look<'_>, class: usize, found: &mut Vec<Ranked>) -> Result<(), AllocError> {
    for cell in look.part.classes.members(class) {
        let other = look.part.across(class, *cell);
        if is_at_home(look, *cell, other)
            || look.all.class_of(other) == look.all.class_of(*cell)
            || !is_standing(look.all, *cell)
            || !is_said(look, class, *cell)
        {
            continue;
        }
        let are_tied = is_tied(look.all, *cell) && is_tied(look.all, other);
        let line = GuardedLine::Equal(other.min(*cell), other.max(*cell));
        push(look, 0, are_tied, line, found)?;
    }
    Ok(())
}

// The factor of a second cell, such that the sum of both is a constant.
fn factor_of(one: Option<Signature>, other: Option<Signature>) -> Option<Value> {
    let (Some(one), Some(other)) = (one, other) else {
        return None;
    };
    if one.above == other.above {
        Some(-1)
    } else if one.above == other.below {
        Some(1)
    } else {
        None
    }
}

// Two cells whose sum is a constant under the guard alone.
fn add_sum(
    look: &Look<'_>,
    first: usize,
    second: usize,
    factor: Value,
    found: &mut Vec<Ranked>,
) -> Result<(), AllocError> {
    let signatures = &look.all.signatures;
    let (one, other) = (
        signatures.get(first).copied(),
        signatures.get(second).copied(),
    );
    if factor_of(one, other).is_some() {
        return Ok(());
    }
    let times = factor.wrapping_mul(look.part.seen.value(0, second));
    let constant = look.part.seen.value(0, first).wrapping_add(times);
    let group = match look.all.subjects.get(first) {
        Some(subject) => subject.group,
        None => 0,
    };
    if !can_be_written(group, constant) {
        return Ok(());
    }
    let are_tied = is_tied(look.all, first) && is_tied(look.all, second);
    let line = GuardedLine::Sum {
        first,
        second,
        factor,
        constant,
    };
    push(look, 1, are_tied, line, found)
}

// Whether two cells and the guard are all of one program.
fn is_at_home(look: &Look<'_>, cell: usize, other: usize) -> bool {
    let side = look.all.side(cell);
    look.all.side(other) == side && look.all.member_of(look.guard.class, side).is_some()
}

// Sums of the cells of a class and those of later classes of its type, a cell of each program, or two of one where the guard is of the
// other.
fn add_sums(look: &Look<'_>, class: usize, found: &mut Vec<Ranked>) -> Result<(), AllocError> {
    let part = look.part;
    for other in class.saturating_add(1)..part.classes.len() {
        if part.group(class) != part.group(other) {
            continue;
        }
        let Some(factor) = factor_of(part.signature(class), part.signature(other)) else {
            continue;
        };
        let first = part.first(class);
        let second = part.across(other, first);
        let first = part.across(class, second);
        if !is_at_home(look, first, second) {
            add_sum(look, first, second, factor, found)?;
        }
    }
    Ok(())
}

// Whether a value that a cell has under the guard follows from its going together with a value of the guard's cell.
fn follows(look: &Look<'_>, cell: usize, value: Value, siblings: &[Guard]) -> bool {
    let sum = indicator(look.all.seen, cell, value, false);
    let opposite = indicator(look.all.seen, cell, value, true);
    for sibling in siblings {
        let is_same = sibling.held.cell == look.guard.held.cell;
        if is_same && (sibling.sum == sum || sibling.sum == opposite) {
            return true;
        }
    }
    false
}

// Whether a guard and a cell are BOOL both: of two BOOL cells that never met, other proposals are made, where that tells something.
fn are_flags(look: &Look<'_>, class: usize) -> bool {
    look.all.sort(class) == Sort::Bool && look.all.sort(look.guard.class) == Sort::Bool
}

// A bound of a cell under the guard: its least value, or its greatest one, where that lies at a number of the texts or next to it
// and the cell has others beyond it on other pairs.
fn add_bounds(
    look: &Look<'_>,
    cell: usize,
    whole: Signature,
    part: Signature,
    edges: &[Value],
    found: &mut Vec<Ranked>,
) -> Result<(), AllocError> {
    let are_tied = is_tied(look.all, cell);
    let below = part.low.wrapping_sub(1);
    if part.low > whole.low && (edges.contains(&part.low) || edges.contains(&below)) {
        let value = part.low;
        let line = GuardedLine::AtLeast(HeldValue { cell, value });
        push(look, 3, are_tied, line, found)?;
    }
    let above = part.high.wrapping_add(1);
    if part.high < whole.high && (edges.contains(&part.high) || edges.contains(&above)) {
        let value = part.high;
        let line = GuardedLine::AtMost(HeldValue { cell, value });
        push(look, 3, are_tied, line, found)?;
    }
    Ok(())
}

// The value of a cell under the guard, or its bounds.
fn add_one(
    look: &Look<'_>,
    class: usize,
    edges: &[Value],
    siblings: &[Guard],
    found: &mut Vec<Ranked>,
) -> Result<(), AllocError> {
    let cell = look.all.first(class);
    let (Some(whole), Some(part)) = (
        look.all.signature(class),
        look.part.signatures.get(cell).copied(),
    ) else {
        return Ok(());
    };
    if !part.is_constant() {
        // Away from the start, bounds say little.
        return if look.all.sort(class) == Sort::Integer && !look.guard.is_turned {
            add_bounds(look, cell, whole, part, edges, found)
        } else {
            Ok(())
        };
    }
    let value = part.low;
    if class == look.guard.class || are_flags(look, class) || follows(look, cell, value, siblings) {
        return Ok(());
    }
    let line = GuardedLine::Has(HeldValue { cell, value });
    push(look, 2, is_tied(look.all, cell), line, found)
}

// All lines under a guard.
fn add_all(
    look: &Look<'_>,
    edges: &[Value],
    guards: &[Guard],
    found: &mut Vec<Ranked>,
) -> Result<(), AllocError> {
    for class in 0..look.part.classes.len() {
        add_equal(look, class, found)?;
        if look.part.sort(class) == Sort::Integer {
            add_sums(look, class, found)?;
        }
    }
    for class in 0..look.all.classes.len() {
        if look.all.sort(class) != Sort::Other && !look.all.is_of_inputs(class) {
            add_one(look, class, edges, guards, found)?;
        }
    }
    Ok(())
}

// All lines under a guard, by what was seen where it holds.
fn add_seen(
    facts: &Facts<'_>,
    guard: &Guard,
    seen: &Seen,
    edges: &[Value],
    guards: &[Guard],
    found: &mut Vec<Ranked>,
) -> Result<(), AllocError> {
    let part = facts_of(facts.alloc, seen, facts.subjects)?;
    let look = Look {
        guard,
        all: facts,
        part: &part,
    };
    add_all(&look, edges, guards, found)
}

// All lines under all guards.
fn ranked_of(facts: &Facts<'_>, edges: &[Value]) -> Result<Vec<Ranked>, AllocError> {
    let guards = guards_of(facts)?;
    let mut ranked = Vec::new(facts.alloc);
    for guard in &guards {
        let seen = part_of(facts, guard)?;
        add_seen(facts, guard, &seen, edges, guards.as_slice(), &mut ranked)?;
    }
    Ok(ranked)
}

/// Lines under guards, the strongest first, as many as there is room for among so many proposals.
pub fn add_guarded(
    facts: &Facts<'_>,
    edges: &[Value],
    room: usize,
    found: &mut Vec<Proposal>,
) -> Result<(), AllocError> {
    let most = room.min(found.len().saturating_add(MOST_LINES));
    let ranked = ranked_of(facts, edges)?;
    for rank in 0..RANKS {
        for one in &ranked {
            if one.rank == rank && found.len() < most {
                found.push(Proposal::Guarded {
                    guard: one.guard.held,
                    is_turned: one.guard.is_turned,
                    line: one.line,
                    seen: one.guard.seen,
                })?;
            }
        }
    }
    Ok(())
}
