// Cells and values of both programs, as clauses name them.
use crate::spelling::Spelling;
use crate::wording::Wording;
use plc_types::{DataType, Elementary, Range, Value};
use program_tree::{Cell, Program};
use std::alloc::{AllocError, Global};

/// The programs whose cells are numbered, OLD's from 0 on and NEW's behind them, and how their texts write names.
#[derive(Clone, Copy)]
pub struct Names<'a> {
    pub alloc: Global,
    pub old: &'a Program,
    pub new: &'a Program,
    pub wording: &'a Wording,
}

// The cell of a number, and the word before its path.
fn cell_at<'a>(names: &Names<'a>, number: usize) -> Option<(&'static str, &'a Cell)> {
    let count = names.old.cells.len();
    if number < count {
        return match names.old.cells.get(number) {
            Some(cell) => Some(("old.", cell)),
            None => None,
        };
    }
    match names.new.cells.get(number - count) {
        Some(cell) => Some(("new.", cell)),
        None => None,
    }
}

// How the text of the program of a cell writes names.
fn spelling_at<'a>(names: &Names<'a>, number: usize) -> &'a Spelling {
    if number < names.old.cells.len() {
        &names.wording.old
    } else {
        &names.wording.new
    }
}

/// Adds `old.path` or `new.path`, as the program's text writes it.
pub fn add_cell(names: &Names<'_>, number: usize, text: &mut String) -> Result<(), AllocError> {
    if let Some((word, cell)) = cell_at(names, number) {
        text.push_str(word)?;
        spelling_at(names, number).add_path(cell.path.as_str(), text)?;
    }
    Ok(())
}

/// The elementary type of a cell; of one of an enumeration none.
pub fn kind_at(names: &Names<'_>, number: usize) -> Option<Elementary> {
    match cell_at(names, number) {
        Some(
            (
                _,
                Cell {
                    kind: DataType::Elementary(kind),
                    ..
                },
            ),
        ) => Some(*kind),
        _ => None,
    }
}

/// The range of a cell; where there is no such cell, 0 alone.
pub fn range_at(names: &Names<'_>, number: usize) -> Range {
    match cell_at(names, number) {
        Some((_, cell)) => cell.range,
        None => Range { low: 0, high: 0 },
    }
}

/// Adds a cell as a value of a type, where one is given.
pub fn add_cell_as(
    names: &Names<'_>,
    number: usize,
    kind: Option<Elementary>,
    text: &mut String,
) -> Result<(), AllocError> {
    let (Some(own), Some(kind)) = (kind_at(names, number), kind) else {
        return add_cell(names, number, text);
    };
    if own == kind {
        return add_cell(names, number, text);
    }
    text.push_str(own.name())?;
    text.push_str("_TO_")?;
    text.push_str(kind.name())?;
    text.push_str("(")?;
    add_cell(names, number, text)?;
    text.push_str(")")
}

/// Adds a number in decimal digits.
pub fn add_number(names: &Names<'_>, value: Value, text: &mut String) -> Result<(), AllocError> {
    let digits = format!(in names.alloc; "{value}")?;
    text.push_str(digits.as_str())
}

// The name of a value of an enumeration.
fn value_name<'a>(program: &'a Program, kind: DataType, value: Value) -> Option<&'a str> {
    let DataType::Enumeration(number) = kind else {
        return None;
    };
    let values = program.types.get(number)?;
    let place = usize::try_from(value).ok()?;
    match values.get(place) {
        Some(name) => Some(name.as_str()),
        None => None,
    }
}

/// Adds a value of a cell: a number, or the name of a value of an enumeration.
pub fn add_value(
    names: &Names<'_>,
    number: usize,
    value: Value,
    text: &mut String,
) -> Result<(), AllocError> {
    let Some((word, cell)) = cell_at(names, number) else {
        return Ok(());
    };
    let program = if number < names.old.cells.len() {
        names.old
    } else {
        names.new
    };
    match value_name(program, cell.kind, value) {
        Some(name) => {
            text.push_str(word)?;
            spelling_at(names, number).add_value(name, text)
        }
        None => add_number(names, value, text),
    }
}

/// Whether a cell is a BOOL one.
pub fn is_bool(names: &Names<'_>, number: usize) -> bool {
    kind_at(names, number) == Some(Elementary::Bool)
}

/// Adds that a cell has a value, or that it has not: a BOOL cell by its name alone.
pub fn add_held(
    names: &Names<'_>,
    number: usize,
    value: Value,
    negated: bool,
    text: &mut String,
) -> Result<(), AllocError> {
    let is_flag = is_bool(names, number);
    let is_true = value == 1;
    if is_flag && is_true == negated {
        text.push_str("NOT ")?;
    }
    add_cell(names, number, text)?;
    if is_flag {
        return Ok(());
    }
    text.push_str(if negated { " <> " } else { " = " })?;
    add_value(names, number, value, text)
}
