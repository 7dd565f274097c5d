// The cells of both programs, as far as proposals have to know them.
use crate::signature::mixed;
use indexmap::IndexMap;
use plc_types::{DataType, Elementary, Range};
use program_tree::{Cell, Part, Program};
use scan_model::Side;
use std::alloc::{AllocError, Global};

/// What may be said of values of a type: of BOOL ones; of numbers, which may be added; of enumerations, which have names; and of
/// others, which may be compared.
#[derive(Clone, Copy)]
pub enum Sort {
    Bool,
    Integer,
    Enumeration,
    Other,
}

/// A cell of one of the programs: a number that its type has alone; whether it is an input; its range; the cell of the other
/// program that has its path and its type; and the number of the small chart of whose step it is a cell, from 1, or 0.
#[derive(Clone, Copy)]
pub struct Subject {
    pub side: Side,
    pub sort: Sort,
    pub group: u64,
    pub is_input: bool,
    pub range: Range,
    pub twin: Option<usize>,
    pub chart: usize,
}

// The greatest number of steps of a chart whose steps are compared by candidates of the product.
const SMALL_CHART: usize = 16;

fn sort_of(kind: DataType) -> Sort {
    match kind {
        DataType::Elementary(Elementary::Bool) => Sort::Bool,
        DataType::Elementary(kind) => {
            if kind.is_integer() {
                Sort::Integer
            } else {
                Sort::Other
            }
        }
        DataType::Enumeration(_) => Sort::Enumeration,
        DataType::Unknown => Sort::Other,
    }
}

/// A number for each elementary type: its place in the table of these, from 1.
pub fn number_of(kind: Elementary) -> u64 {
    let mut number = 1u64;
    for other in Elementary::all() {
        if *other == kind {
            return number;
        }
        number = number.wrapping_add(1);
    }
    number
}

/// The elementary type of this number; none of the number of an enumeration.
pub fn type_of(group: u64) -> Option<Elementary> {
    for kind in Elementary::all() {
        if number_of(*kind) == group {
            return Some(*kind);
        }
    }
    None
}

// A checksum of the names of an enumeration's values.
fn sum_of_names(names: &[String]) -> u64 {
    let mut sum = 11u64;
    for name in names {
        sum = mixed(sum, 256);
        for byte in name.as_bytes() {
            sum = mixed(sum, *byte as u64);
        }
    }
    sum
}

fn group_of(program: &Program, kind: DataType) -> u64 {
    match kind {
        DataType::Elementary(kind) => number_of(kind),
        DataType::Enumeration(number) => match program.types.get(number) {
            Some(names) => sum_of_names(names.as_slice()),
            None => 0,
        },
        DataType::Unknown => 0,
    }
}

fn subject_of(side: Side, program: &Program, cell: &Cell) -> Subject {
    Subject {
        side,
        sort: sort_of(cell.kind),
        group: group_of(program, cell.kind),
        is_input: cell.part == Part::Input,
        range: cell.range,
        twin: None,
        chart: 0,
    }
}

fn add_cells(side: Side, program: &Program, subjects: &mut Vec<Subject>) -> Result<(), AllocError> {
    for cell in &program.cells {
        subjects.push(subject_of(side, program, cell))?;
    }
    Ok(())
}

// Marks the cells of the steps of small charts, each chart by a number of its own, and two cells a step; the cells of the program
// stand from a place on.
fn mark_charts(program: &Program, start: usize, subjects: &mut [Subject]) {
    for (number, chart) in program.charts.iter().enumerate() {
        if chart.steps > SMALL_CHART {
            continue;
        }
        for offset in 0..chart.steps.wrapping_mul(2) {
            let place = start.wrapping_add(chart.first).wrapping_add(offset);
            if place < subjects.len() {
                subjects[place].chart = number.wrapping_add(1);
            }
        }
    }
}

// The cells of a program by their paths.
fn places_of(alloc: Global, program: &Program) -> Result<IndexMap<String, usize>, AllocError> {
    let mut places = IndexMap::new(alloc);
    for (place, cell) in program.cells.iter().enumerate() {
        places.insert(cell.path.clone()?, place)?;
    }
    Ok(places)
}

// Joins two cells of one path, where they have one type.
fn join(subjects: &mut [Subject], old: usize, new: usize) {
    if old < subjects.len() && new < subjects.len() && subjects[old].group == subjects[new].group {
        subjects[old].twin = Some(new);
        subjects[new].twin = Some(old);
    }
}

// Joins the cells of one path and one type.
fn join_twins(
    alloc: Global,
    old: &Program,
    new: &Program,
    subjects: &mut [Subject],
) -> Result<(), AllocError> {
    let places = places_of(alloc, new)?;
    let start = old.cells.len();
    for (place, cell) in old.cells.iter().enumerate() {
        if let Some(other) = places.get(cell.path.as_str()) {
            join(subjects, place, start.wrapping_add(*other));
        }
    }
    Ok(())
}

/// The cells of OLD, and behind them those of NEW.
pub fn subjects_of(
    alloc: Global,
    old: &Program,
    new: &Program,
) -> Result<Vec<Subject>, AllocError> {
    let mut subjects = Vec::new(alloc);
    add_cells(Side::Old, old, &mut subjects)?;
    add_cells(Side::New, new, &mut subjects)?;
    mark_charts(old, 0, subjects.as_mut_slice());
    mark_charts(new, old.cells.len(), subjects.as_mut_slice());
    join_twins(alloc, old, new, subjects.as_mut_slice())?;
    Ok(subjects)
}
