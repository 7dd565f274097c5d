// BOOL cells that are AND, OR or AND NOT of two of the other program.
use crate::proposal::{Junction, Proposal};
use scan_model::Side;
use seen_values::{Bits, Classes, Facts, Sort, bits_of};
use std::alloc::AllocError;

// Of how many cells of a program junctions are made.
const MOST_CELLS: usize = 96;

// How many junctions are proposed for a cell.
const MOST_CHOICES: usize = 3;

// Two cells, and how they are joined.
#[derive(Clone, Copy)]
struct Join {
    first: usize,
    second: usize,
    junction: Junction,
}

// All junctions of cells, each by the checksum of its values.
#[derive(Drop)]
struct Joins {
    by_sum: Classes,
    joins: Vec<Join>,
}

// A cell and its values.
#[derive(Drop)]
struct Operand {
    cell: usize,
    bits: Bits,
}

// The cells of a program that are joined, one of each class.
fn operands_of(facts: &Facts<'_>, side: Side) -> Result<Vec<Operand>, AllocError> {
    let mut operands = Vec::new(facts.alloc);
    for class in 0..facts.classes.len() {
        if facts.sort(class) != Sort::Bool || operands.len() >= MOST_CELLS {
            continue;
        }
        if let Some(cell) = facts.member_of(class, side) {
            let bits = bits_of(facts.alloc, facts.seen, cell)?;
            operands.push(Operand { cell, bits })?;
        }
    }
    Ok(operands)
}

impl Joins {
    fn add(&mut self, sum: u64, join: Join) -> Result<(), AllocError> {
        self.by_sum.add(sum, self.joins.len())?;
        self.joins.push(join)?;
        Ok(())
    }

    // Two cells, in all ways.
    fn add_two(&mut self, one: &Operand, other: &Operand) -> Result<(), AllocError> {
        let (first, second) = (one.cell, other.cell);
        let both = Join {
            first,
            second,
            junction: Junction::And,
        };
        self.add(one.bits.sum_of_both(&other.bits), both)?;
        let either = Join {
            first,
            second,
            junction: Junction::Or,
        };
        self.add(one.bits.sum_of_either(&other.bits), either)?;
        let alone = Join {
            first,
            second,
            junction: Junction::AndNot,
        };
        self.add(one.bits.sum_of_first_alone(&other.bits), alone)?;
        let turned = Join {
            first: second,
            second: first,
            junction: Junction::AndNot,
        };
        self.add(other.bits.sum_of_first_alone(&one.bits), turned)
    }
}

// All junctions of two cells of a program.
fn joins_of(facts: &Facts<'_>, side: Side) -> Result<Joins, AllocError> {
    let operands = operands_of(facts, side)?;
    let mut joins = Joins {
        by_sum: Classes::new(facts.alloc),
        joins: Vec::new(facts.alloc),
    };
    for (place, one) in operands.iter().enumerate() {
        for (behind, other) in operands.iter().enumerate() {
            if place < behind {
                joins.add_two(one, other)?;
            }
        }
    }
    Ok(joins)
}

// The first junctions that have the values of a cell.
fn add_for(
    facts: &Facts<'_>,
    joins: &Joins,
    cell: usize,
    found: &mut Vec<Proposal>,
) -> Result<(), AllocError> {
    let sum = bits_of(facts.alloc, facts.seen, cell)?.sum();
    let Some(number) = joins.by_sum.find(sum) else {
        return Ok(());
    };
    for place in joins.by_sum.members(number).iter().take(MOST_CHOICES) {
        if let Some(join) = joins.joins.get(*place) {
            found.push(Proposal::Joined {
                cell,
                first: join.first,
                second: join.second,
                junction: join.junction,
            })?;
        }
    }
    Ok(())
}

/// For each BOOL cell that nothing ties to the other program, junctions of two cells of that one.
pub fn add_junctions(
    facts: &Facts<'_>,
    other: Side,
    found: &mut Vec<Proposal>,
) -> Result<(), AllocError> {
    let joins = joins_of(facts, other)?;
    let mut count = 0usize;
    for class in 0..facts.classes.len() {
        if facts.sort(class) != Sort::Bool || facts.is_tied(class) || count >= MOST_CELLS {
            continue;
        }
        let cell = facts.first(class);
        if !facts.is_of(cell, other) {
            count = count.wrapping_add(1);
            add_for(facts, &joins, cell, found)?;
        }
    }
    Ok(())
}
