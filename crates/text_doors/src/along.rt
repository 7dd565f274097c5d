// Which candidates hold along a run of a pair of programs.
ghost use Rattle.scan_replay.specs.Duos.{AreComparable};

use crate::relation::Comparison;
use case_files::{
    CaseFault, Mismatch, Section, compare_words, expected_text_of, malformed, numbers_of,
};
use plc_types::Value;
use program_printing::add_name;
use scan_model::Candidate;
use scan_replay::Duo;
use std::alloc::{AllocError, Global};

// A run: its lines, and which candidates have held so far.
#[derive(Drop)]
struct Run {
    lines: String,
    held: Vec<bool>,
}

/// Compares the lines of a run, and the names of the candidates that hold all along, with those that the two sections state.
pub(crate) fn compare_run(
    alloc: Global,
    all: &Comparison,
    along: Option<&Section>,
    held: Option<&Section>,
    found: &mut Vec<Mismatch>,
) -> Result<(), CaseFault>
    requires { AreComparable all.now.old all.now.new all.now.relation }
{
    let Some(along) = along else {
        return match held {
            None => Ok(()),
            Some(_) => Err(malformed(alloc, "the case has no section along", "")),
        };
    };
    let expected = expected_text_of(alloc, along)?;
    let rows = rows_of(alloc, expected.as_str())?;
    let run = run_of(alloc, all, &rows)?;
    compare_words(alloc, "along", expected.as_str(), run.lines.as_str(), found)?;
    if let Some(held) = held {
        let expected = expected_text_of(alloc, held)?;
        let got = names_held(alloc, &all.relation.candidates, &run.held)?;
        compare_words(alloc, "held", expected.as_str(), got.as_str(), found)?;
    }
    Ok(())
}

// A row of numbers.
#[derive(Drop)]
struct Row {
    numbers: Vec<Value>,
}

// The rows of a text, each of which stands in front of a colon. The first line is that of the start.
fn rows_of(alloc: Global, text: &str) -> Result<Vec<Row>, CaseFault> {
    let mut rows = Vec::new(alloc);
    for (number, line) in text.lines().enumerate() {
        match line.split_once(':') {
            Some((front, _)) if number > 0 => {
                let numbers = numbers_of(alloc, front)?;
                rows.push(Row { numbers })?;
            }
            _ => {}
        }
    }
    if text.starts_with("start:") {
        Ok(rows)
    } else {
        Err(malformed(alloc, "a run begins with the line start:", ""))
    }
}

fn run_of(alloc: Global, all: &Comparison, rows: &[Row]) -> Result<Run, AllocError>
    requires { AreComparable all.now.old all.now.new all.now.relation }
{
    let candidates = &all.relation.candidates;
    let mut run = Run {
        lines: String::from_str(alloc, "start:")?,
        held: Vec::new(alloc),
    };
    for _ in candidates {
        run.held.push(true)?;
    }
    let mut duo = Duo::new(alloc, &all.old, &all.new, &all.relation)?;
    add_failing(candidates, &duo, &mut run)?;
    run.held = still_held(alloc, &run.held, &duo)?;
    for row in rows {
        add_row(alloc, row, &mut run)?;
        if !duo.allowed(&row.numbers) {
            run.lines.push_str(" not allowed")?;
            return Ok(run);
        }
        duo.step(&row.numbers);
        add_failing(candidates, &duo, &mut run)?;
        run.held = still_held(alloc, &run.held, &duo)?;
    }
    Ok(run)
}

fn add_row(alloc: Global, row: &Row, run: &mut Run) -> Result<(), AllocError> {
    for (place, number) in row.numbers.iter().enumerate() {
        run.lines.push_str(if place > 0 { " " } else { "\n" })?;
        run.lines.push_str(format!(in alloc; "{number}")?.as_str())?;
    }
    run.lines.push_str(":")
}

// Adds the names of the candidates that do not hold on a pair of states.
fn add_failing(candidates: &[Candidate], duo: &Duo<'_>, run: &mut Run) -> Result<(), AllocError> {
    let mut first = true;
    for (number, candidate) in candidates.iter().enumerate() {
        if !duo.holds(number) {
            run.lines.push_str(if first { " " } else { ", " })?;
            run.lines.push_str(candidate.name.as_str())?;
            first = false;
        }
    }
    Ok(())
}

// Which of the candidates that have held so far hold on a pair of states too.
fn still_held(alloc: Global, held: &[bool], duo: &Duo<'_>) -> Result<Vec<bool>, AllocError> {
    let mut now = Vec::new(alloc);
    for (number, held) in held.iter().enumerate() {
        now.push(*held && duo.holds(number))?;
    }
    Ok(now)
}

fn names_held(
    alloc: Global,
    candidates: &[Candidate],
    held: &[bool],
) -> Result<String, AllocError> {
    let mut names = String::new(alloc);
    for (candidate, held) in candidates.iter().zip(held) {
        if *held {
            add_name(candidate, &mut names)?;
        }
    }
    Ok(names)
}
