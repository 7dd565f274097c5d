// Rows that are tried, and run.
ghost use Rattle.std.specs.Prelude.{◌≡◌, ◌<◌, ◌≤◌, ◌+◌, ◌++◌, ◌∷◌, [], length, IsTrue, IfOk, IfSome, OnOk};
ghost use Rattle.scan_replay.specs.Duos.{with_pair};
ghost use Rattle.queries.specs.Comparisons.{IsComparison};
ghost use Rattle.pair_trial.specs.Trials.{comparison_of, setting_in};
ghost use Rattle.reach_search.specs.Walks.{AreAllowed, behind, IsReached};

use crate::drawing::draw;
use lane_sim::Random;
use pair_trial::Trial;
use queries::Row;
use std::alloc::{AllocError, Global};

/// How many rows are tried on a pair.
const TRIES: u32 = 64;

fn copy_row(alloc: Global, row: &Row) -> Result<Row, AllocError>
    ensures { IfOk result (λ copy. copy ≡ row.now) }
{
    let mut copy = Row::new(alloc);
    for number in row.as_slice() {
        copy.push(*number)?;
    }
    Ok(copy)
}

// Adds a row behind the others.
fn add(rows: &mut Vec<Row>, row: Row) -> Result<(), AllocError>
    ensures { OnOk result (rows.new.items ≡ rows.old.items ++ row ∷ []) }
{
    rows.push(row)?;
    Ok(())
}

/// The list of one row that is allowed at the start, which is run.
pub fn begin_with(alloc: Global, trial: &mut Trial, row: &Row) -> Result<Vec<Row>, AllocError>
    requires comparison { IsComparison (comparison_of trial.old) }
    requires allowed { IsTrue ((setting_in trial.old).allowed row.now (setting_in trial.old).start) }
    ensures reached { IfOk result (λ rows. IsReached (comparison_of trial.old) rows.items trial.new.pair) }
    ensures trial { trial.new ≡ with_pair trial.new.pair trial.old }
{
    trial.reset();
    trial.step(row.as_slice());
    let mut rows = Vec::new(alloc);
    let copy = copy_row(alloc, row)?;
    add(&mut rows, copy)?;
    Ok(rows)
}

// A row that is allowed on the pair, if one of those that are guessed is.
fn find_row(
    alloc: Global,
    trial: &mut Trial,
    random: &mut Random,
    first: &Row,
    rows: &[Row],
) -> Result<Option<Row>, AllocError>
    ensures allowed { IfOk result (λ found. IfSome found (λ row. IsTrue ((setting_in trial.old).allowed row trial.old.pair))) }
    ensures trial { trial.new ≡ trial.old }
{
    let last = rows.last().unwrap_or(first);
    for turn in 0..TRIES {
        let row = draw(alloc, random, turn, trial.inputs(), first, last)?;
        if trial.allowed(row.as_slice()) {
            return Ok(Some(row));
        }
    }
    Ok(None)
}

// Runs a row that is allowed, and adds it to the list.
fn go_by(trial: &mut Trial, rows: &mut Vec<Row>, row: Row) -> Result<(), AllocError>
    requires reached { IsReached (comparison_of trial.old) rows.old.items trial.old.pair }
    requires below { length rows.old.items < (setting_in trial.old).depth }
    requires allowed { IsTrue ((setting_in trial.old).allowed row trial.old.pair) }
    ensures reached { OnOk result (IsReached (comparison_of trial.old) rows.new.items trial.new.pair) }
    ensures longer { OnOk result (length rows.new.items ≡ length rows.old.items + 1) }
    ensures trial { trial.new ≡ with_pair trial.new.pair trial.old }
{
    trial.step(row.as_slice());
    add(rows, row)?;
    Ok(())
}

/// Goes on by rows that are guessed, until none of those is allowed, or there are DEPTH.
pub fn go_on(
    alloc: Global,
    trial: &mut Trial,
    random: &mut Random,
    first: &Row,
    rows: &mut Vec<Row>,
) -> Result<(), AllocError>
    requires reached { IsReached (comparison_of trial.old) rows.old.items trial.old.pair }
    ensures reached { OnOk result (IsReached (comparison_of trial.old) rows.new.items trial.new.pair) }
    ensures longer { OnOk result (length rows.old.items ≤ length rows.new.items) }
    ensures trial { trial.new ≡ with_pair trial.new.pair trial.old }
{
    'scans: while (rows.len() as u64) < trial.depth() {
        match find_row(alloc, trial, random, first, rows)? {
            Some(row) => go_by(trial, rows, row)?,
            None => return Ok(()),
        }
    }
    Ok(())
}

/// Runs rows that are allowed, from the start.
pub fn run_rows(trial: &mut Trial, rows: &[Row])
    requires { AreAllowed (comparison_of trial.old) rows.now }
    ensures pair { trial.new.pair ≡ behind (comparison_of trial.old) rows.now }
    ensures trial { trial.new ≡ with_pair trial.new.pair trial.old }
{
    trial.reset();
    for row in rows {
        trial.step(row.as_slice());
    }
}
