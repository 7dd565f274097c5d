// Lines that stand in a comment, and what is noted of them.
use crate::cells::{Names, add_cell, add_value};
use crate::leaving::Leaving;
use line_trials::InvariantLine;
use plc_types::Value;
use std::alloc::AllocError;

// How many cells a note names.
const MOST_NAMED: usize = 8;

fn is_of_name(byte: Option<&u8>) -> bool {
    match byte {
        Some(byte) => byte.is_ascii_alphanumeric() || *byte == b'_' || *byte == b'.',
        None => false,
    }
}

// Whether a clause has this name as a word.
fn has_name(clause: &[u8], name: &[u8]) -> bool {
    for start in 0..clause.len() {
        let end = start.wrapping_add(name.len());
        let is_begun = start > 0 && is_of_name(clause.get(start.wrapping_sub(1)));
        if !is_begun && clause.get(start..end) == Some(name) && !is_of_name(clause.get(end)) {
            return true;
        }
    }
    false
}

// The value of a cell before a scan, by its number.
fn value_before(names: &Names<'_>, leaving: &Leaving, number: usize) -> Option<Value> {
    let count = names.old.cells.len();
    if number < count {
        leaving.old.get(number).copied()
    } else {
        leaving.new.get(number - count).copied()
    }
}

// What is noted of a clause that a scan leaves: the values of its cells before the scan.
fn note_on(names: &Names<'_>, clause: &str, leaving: &Leaving) -> Result<String, AllocError> {
    let mut note = String::from_str(names.alloc, "; not kept")?;
    let count = names.old.cells.len().saturating_add(names.new.cells.len());
    let mut named = 0usize;
    for number in 0..count {
        let mut name = String::new(names.alloc);
        add_cell(names, number, &mut name)?;
        if named < MOST_NAMED
            && has_name(clause.as_bytes(), name.as_str().as_bytes())
            && let Some(value) = value_before(names, leaving, number)
        {
            note.push_str(if named == 0 {
                ": a scan leaves it from "
            } else {
                ", "
            })?;
            note.push_str(name.as_str())?;
            note.push_str(" = ")?;
            add_value(names, number, value, &mut note)?;
            named = named.wrapping_add(1);
        }
    }
    Ok(note)
}

/// Puts each line into a comment for which there is a scan that leaves it, and notes the values from which it does.
pub fn put_aside(
    names: &Names<'_>,
    marks: &[Option<usize>],
    scans: &[Leaving],
    lines: &mut Vec<InvariantLine>,
) -> Result<(), AllocError> {
    for place in 0..lines.len() {
        if place < marks.len()
            && let Some(number) = marks[place]
            && let Some(leaving) = scans.get(number)
        {
            let note = note_on(names, lines[place].clause.as_str(), leaving)?;
            lines[place].note.push_str(note.as_str())?;
            lines[place].is_kept = false;
        }
    }
    Ok(())
}
