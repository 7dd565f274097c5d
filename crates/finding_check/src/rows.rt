// Rows: their tests in their order.
ghost use Rattle.std.specs.Prelude.{◌≡◌, ◌<◌, ◌≤◌, IfOk};
ghost use Rattle.scan_replay.specs.Duos.{with_pair};
ghost use Rattle.queries.specs.Sets.{members};
ghost use Rattle.pair_trial.specs.Trials.{setting_in};
ghost use Rattle.judgement.specs.Tests.{first_row, walk_row, drop_row, pair_row, scan_row};
ghost use Rattle.finding_check.specs.Stages.{moved_of};
ghost use Rattle.finding_check.specs.Rooms.{IsSmall};

use crate::stage::{Moved, Stage};
use finding_lines::Conclusion;
use judgement::{Reach, Reason};
use pair_trial::{Trial, first_set, keep, meets};
use plc_types::Value;
use queries::CandidateSet;
use std::alloc::{AllocError, Global};

/// A first row.
pub fn first_row(
    alloc: Global,
    trial: &mut Trial,
    reach: Reach,
    row: &[Value],
) -> Result<Moved, AllocError>
    ensures moved { IfOk result (λ step. moved_of step trial.new.pair ≡ first_row (setting_in trial.old) reach row.now) }
    ensures kept { trial.new ≡ with_pair trial.new.pair trial.old }
{
    if !trial.row_fits(row) {
        return Ok(Moved::Fails(Reason::B2));
    }
    trial.reset();
    if !trial.allowed(row) {
        return Ok(Moved::Fails(Reason::B3));
    }
    match reach {
        Reach::Untold => {
            let set = first_set(alloc, trial)?;
            Ok(Moved::Goes(Stage::Drops(reach, set)))
        }
        _ => Ok(Moved::Goes(Stage::Walks(0))),
    }
}

/// The next row of an allowed list from the start, behind so many. The pair so far is that on trial.
pub fn walk_row(
    alloc: Global,
    trial: &mut Trial,
    rows: u64,
    row: &[Value],
) -> Result<Moved, AllocError>
    requires small { IsSmall (setting_in trial.old) }
    requires deep { rows < (setting_in trial.old).depth }
    ensures moved { IfOk result (λ step. moved_of step trial.new.pair ≡ walk_row (setting_in trial.old) rows trial.old.pair row.now) }
    ensures kept { trial.new ≡ with_pair trial.new.pair trial.old }
{
    if !trial.row_fits(row) {
        return Ok(Moved::Fails(Reason::B2));
    }
    if !trial.allowed(row) {
        return Ok(Moved::Fails(Reason::B3));
    }
    trial.step(row);
    if rows + 1 < trial.depth() {
        return Ok(Moved::Goes(Stage::Walks(rows + 1)));
    }
    let set = first_set(alloc, trial)?;
    Ok(Moved::Goes(Stage::Drops(Reach::Greatest(rows + 1), set)))
}

/// A row that drops candidates.
pub fn drop_row(
    trial: &mut Trial,
    reach: Reach,
    mut set: CandidateSet,
    old: &[Value],
    new: &[Value],
    row: &[Value],
) -> Moved
    ensures moved { moved_of result trial.new.pair ≡ drop_row (setting_in trial.old) reach (members set) (record { old = old.now; new = new.now }) row.now }
    ensures kept { trial.new ≡ with_pair trial.new.pair trial.old }
{
    if !(trial.pair_fits(old, new) && trial.row_fits(row)) {
        return Moved::Fails(Reason::B2);
    }
    trial.set_pair(old, new);
    if !trial.allowed(row) {
        return Moved::Fails(Reason::B3);
    }
    if !meets(trial, &set) {
        return Moved::Fails(Reason::B4);
    }
    trial.step(row);
    if meets(trial, &set) {
        return Moved::Fails(Reason::B5);
    }
    keep(trial, &mut set);
    Moved::Goes(Stage::Drops(reach, set))
}

/// A row that leads out of the relation.
pub fn pair_row(
    trial: &mut Trial,
    reach: Reach,
    kept: CandidateSet,
    old: &[Value],
    new: &[Value],
    row: &[Value],
) -> Moved
    ensures moved { moved_of result trial.new.pair ≡ pair_row (setting_in trial.old) reach (members kept) (record { old = old.now; new = new.now }) row.now }
    ensures same { trial.new ≡ with_pair trial.new.pair trial.old }
{
    if !(trial.pair_fits(old, new) && trial.row_fits(row)) {
        return Moved::Fails(Reason::B2);
    }
    trial.set_pair(old, new);
    if !trial.allowed(row) {
        return Moved::Fails(Reason::B3);
    }
    if !meets(trial, &kept) {
        return Moved::Fails(Reason::B4);
    }
    trial.step(row);
    if trial.related() {
        return Moved::Fails(Reason::B8);
    }
    Moved::Goes(Stage::Deep(reach, kept, 0))
}

/// A row of a break of so many scans, of which so many are to come behind it. The pair so far is that on trial.
pub fn scan_row(trial: &mut Trial, reach: Reach, scans: u64, more: u64, row: &[Value]) -> Moved
    requires small { IsSmall (setting_in trial.old) }
    requires deep { scans ≤ (setting_in trial.old).depth }
    ensures moved { moved_of result trial.new.pair ≡ scan_row (setting_in trial.old) reach scans more trial.old.pair row.now }
    ensures kept { trial.new ≡ with_pair trial.new.pair trial.old }
{
    if !trial.row_fits(row) {
        return Moved::Fails(Reason::B2);
    }
    if !trial.allowed(row) {
        return Moved::Fails(Reason::B3);
    }
    trial.step(row);
    if more == 0 {
        if trial.related() {
            return Moved::Fails(Reason::B8);
        }
        let verdict = Conclusion::Different(Value::from(scans));
        return Moved::Goes(Stage::End(reach, verdict));
    }
    if !trial.related() {
        return Moved::Fails(Reason::B8);
    }
    Moved::Goes(Stage::Scans(reach, scans, more - 1))
}
