// Lines: a clause, and a note on what was seen.
use crate::cells::{Names, add_cell, add_held, add_number, add_value, is_bool};
use crate::counts::add_count;
use crate::sums::{add_shaped, add_sum};
use crate::wording::Wording;
use line_trials::InvariantLine;
use plc_types::Value;
use program_tree::Program;
use proposal_forms::{GuardedLine, HeldValue, Junction, Proposal};
use std::alloc::{AllocError, Global};

fn add_has_value(
    names: &Names<'_>,
    flag: usize,
    cell: usize,
    value: Value,
    negated: bool,
    text: &mut String,
) -> Result<(), AllocError> {
    add_cell(names, flag, text)?;
    text.push_str(" = (")?;
    add_cell(names, cell, text)?;
    text.push_str(if negated { " <> " } else { " = " })?;
    add_value(names, cell, value, text)?;
    text.push_str(")")
}

fn word_of(junction: Junction) -> &'static str {
    match junction {
        Junction::And => " AND ",
        Junction::Or => " OR ",
        Junction::AndNot => " AND NOT ",
    }
}

fn add_joined(
    names: &Names<'_>,
    cell: usize,
    first: usize,
    second: usize,
    junction: Junction,
    text: &mut String,
) -> Result<(), AllocError> {
    add_cell(names, cell, text)?;
    text.push_str(" = (")?;
    add_cell(names, first, text)?;
    text.push_str(word_of(junction))?;
    add_cell(names, second, text)?;
    text.push_str(")")
}

// Adds two cells with a word between them.
fn add_two(
    names: &Names<'_>,
    first: usize,
    word: &str,
    second: usize,
    text: &mut String,
) -> Result<(), AllocError> {
    add_cell(names, first, text)?;
    text.push_str(word)?;
    add_cell(names, second, text)
}

fn add_bound(
    names: &Names<'_>,
    cell: usize,
    word: &str,
    bound: Value,
    text: &mut String,
) -> Result<(), AllocError> {
    add_cell(names, cell, text)?;
    text.push_str(word)?;
    add_number(names, bound, text)
}

fn add_not_both(
    names: &Names<'_>,
    first: usize,
    second: usize,
    text: &mut String,
) -> Result<(), AllocError> {
    text.push_str("NOT (")?;
    add_two(names, first, " AND ", second, text)?;
    text.push_str(")")
}

fn add_together(
    names: &Names<'_>,
    first: &HeldValue,
    second: &HeldValue,
    text: &mut String,
) -> Result<(), AllocError> {
    text.push_str("(")?;
    add_held(names, first.cell, first.value, false, text)?;
    text.push_str(") = (")?;
    add_held(names, second.cell, second.value, false, text)?;
    text.push_str(")")
}

// Adds that a cell has a value exactly where one of others has its one; where it is turned, that each of them has another one.
fn add_one_of(
    names: &Names<'_>,
    held: &HeldValue,
    parts: &[HeldValue],
    is_turned: bool,
    text: &mut String,
) -> Result<(), AllocError> {
    let is_flag = is_bool(names, held.cell);
    text.push_str(if is_flag { "" } else { "(" })?;
    add_held(names, held.cell, held.value, false, text)?;
    text.push_str(if is_flag { " = (" } else { ") = (" })?;
    for (place, part) in parts.iter().enumerate() {
        if place > 0 {
            text.push_str(if is_turned { " AND " } else { " OR " })?;
        }
        add_held(names, part.cell, part.value, is_turned, text)?;
    }
    text.push_str(")")
}

// Adds that a BOOL cell is TRUE exactly where a cell compares so to a number.
fn add_reaches(
    names: &Names<'_>,
    flag: usize,
    cell: usize,
    word: &str,
    bound: Value,
    text: &mut String,
) -> Result<(), AllocError> {
    add_cell(names, flag, text)?;
    text.push_str(" = (")?;
    add_bound(names, cell, word, bound, text)?;
    text.push_str(")")
}

// Adds the bits of a word that a mask has, and a number to which they compare.
fn add_bits(
    names: &Names<'_>,
    cell: usize,
    mask: Value,
    word: &str,
    value: Value,
    text: &mut String,
) -> Result<(), AllocError> {
    text.push_str("(")?;
    add_bound(names, cell, " AND ", mask, text)?;
    text.push_str(")")?;
    text.push_str(word)?;
    add_number(names, value, text)
}

// Adds that a cell is at least, or at most, so much greater than another; no number below 0 is added.
fn add_apart(
    names: &Names<'_>,
    cell: usize,
    other: usize,
    bound: Value,
    is_least: bool,
    text: &mut String,
) -> Result<(), AllocError> {
    add_cell(names, cell, text)?;
    if bound < 0 {
        text.push_str(" + ")?;
        add_number(names, bound.wrapping_neg(), text)?;
    }
    text.push_str(if is_least { " >= " } else { " <= " })?;
    add_cell(names, other, text)?;
    if bound > 0 {
        text.push_str(" + ")?;
        add_number(names, bound, text)?;
    }
    Ok(())
}

// Adds a line that holds where a cell has a value, behind the other values of this; or where it has another, behind this one.
fn add_guarded(
    names: &Names<'_>,
    guard: &HeldValue,
    is_turned: bool,
    line: &GuardedLine,
    text: &mut String,
) -> Result<(), AllocError> {
    add_held(names, guard.cell, guard.value, !is_turned, text)?;
    text.push_str(" OR ")?;
    match line {
        GuardedLine::Equal(first, second) => add_two(names, *first, " = ", *second, text),
        GuardedLine::Sum {
            first,
            second,
            factor,
            constant,
        } => {
            let terms = [(1, *first), (*factor, *second)];
            add_sum(names, &terms, *constant, text)
        }
        GuardedLine::Has(held) => add_held(names, held.cell, held.value, false, text),
        GuardedLine::AtLeast(held) => add_bound(names, held.cell, " >= ", held.value, text),
        GuardedLine::AtMost(held) => add_bound(names, held.cell, " <= ", held.value, text),
    }
}

// The clause that a proposal stands for.
fn add_clause(names: &Names<'_>, proposal: &Proposal, text: &mut String) -> Result<(), AllocError> {
    match proposal {
        Proposal::Equal(first, second) => add_two(names, *first, " = ", *second, text),
        Proposal::Opposite(first, second) => add_two(names, *first, " = NOT ", *second, text),
        Proposal::HasValue {
            flag,
            cell,
            value,
            negated,
        } => add_has_value(names, *flag, *cell, *value, *negated, text),
        Proposal::Together(first, second) => add_together(names, first, second, text),
        Proposal::Guarded {
            guard,
            is_turned,
            line,
            ..
        } => add_guarded(names, guard, *is_turned, line, text),
        Proposal::Sum { terms, constant } => add_sum(names, terms.as_slice(), *constant, text),
        Proposal::Count { terms, constant } => add_count(names, terms.as_slice(), *constant, text),
        Proposal::Joined {
            cell,
            first,
            second,
            junction,
        } => add_joined(names, *cell, *first, *second, *junction, text),
        Proposal::OneOf {
            held,
            parts,
            is_turned,
        } => add_one_of(names, held, parts.as_slice(), *is_turned, text),
        Proposal::Reaches {
            flag,
            cell,
            bound,
            negated,
        } => {
            let word = if *negated { " < " } else { " >= " };
            add_reaches(names, *flag, *cell, word, *bound, text)
        }
        Proposal::HasBit {
            flag,
            cell,
            mask,
            negated,
        } => {
            add_cell(names, *flag, text)?;
            text.push_str(" = (")?;
            let word = if *negated { " = " } else { " <> " };
            add_bits(names, *cell, *mask, word, 0, text)?;
            text.push_str(")")
        }
        Proposal::Bits { cell, mask, value } => {
            add_bits(names, *cell, *mask, " = ", *value, text)
        }
        Proposal::Shaped {
            cell,
            shape,
            number,
            other,
            factor,
            constant,
        } => add_shaped(
            names,
            (*cell, *shape, *number),
            (*factor, *other),
            *constant,
            text,
        ),
        Proposal::Apart {
            cell,
            other,
            bound,
            is_least,
        } => add_apart(names, *cell, *other, *bound, *is_least, text),
        Proposal::NotBoth { first, second, .. } => add_not_both(names, *first, *second, text),
        Proposal::AtLeast { cell, bound, .. } => add_bound(names, *cell, " >= ", *bound, text),
        Proposal::AtMost { cell, bound, .. } => add_bound(names, *cell, " <= ", *bound, text),
    }
}

// What was seen.
fn note_of(names: &Names<'_>, proposal: &Proposal, pairs: usize) -> Result<String, AllocError> {
    let alloc = names.alloc;
    match proposal {
        Proposal::Equal(_, _) => format!(in alloc; "one value on {pairs} pairs"),
        Proposal::Opposite(_, _) => format!(in alloc; "never alike on {pairs} pairs"),
        Proposal::NotBoth { seen, .. } => {
            let (first, second) = *seen;
            format!(in alloc; "never both on {pairs} pairs; one on {first}, one on {second}")
        }
        Proposal::AtLeast { seen, .. } => format!(in alloc; "seen: {seen} and more"),
        Proposal::AtMost { seen, .. } => format!(in alloc; "seen: up to {seen}"),
        Proposal::Sum { .. } | Proposal::Count { .. } => {
            format!(in alloc; "this sum on {pairs} pairs")
        }
        Proposal::Guarded { seen, .. } => format!(in alloc; "seen there on {seen} pairs"),
        Proposal::Bits { .. } | Proposal::Shaped { .. } | Proposal::Apart { .. } => {
            format!(in alloc; "so on {pairs} pairs")
        }
        Proposal::HasValue { .. }
        | Proposal::Together(_, _)
        | Proposal::Joined { .. }
        | Proposal::OneOf { .. }
        | Proposal::Reaches { .. }
        | Proposal::HasBit { .. } => { format!(in alloc; "together on {pairs} pairs") }
    }
}

fn line_of(
    names: &Names<'_>,
    proposal: &Proposal,
    pairs: usize,
) -> Result<InvariantLine, AllocError> {
    let mut clause = String::new(names.alloc);
    add_clause(names, proposal, &mut clause)?;
    let note = note_of(names, proposal, pairs)?;
    Ok(InvariantLine {
        clause,
        note,
        is_kept: true,
    })
}

/// The lines of the first proposals, at most so many; each held on that many pairs.
pub fn lines_of(
    alloc: Global,
    old: &Program,
    new: &Program,
    wording: &Wording,
    proposals: &[Proposal],
    pairs: usize,
    most: usize,
) -> Result<Vec<InvariantLine>, AllocError> {
    let names = Names {
        alloc,
        old,
        new,
        wording,
    };
    let mut lines = Vec::new(alloc);
    for proposal in proposals.iter().take(most) {
        lines.push(line_of(&names, proposal, pairs)?)?;
    }
    Ok(lines)
}
