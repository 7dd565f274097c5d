// One line, noted.
ghost use Rattle.std.specs.Prelude.{◌≡◌, ◌++◌, ◌∷◌, List, true, OnOk};
ghost use Rattle.std.specs.Option.{option_or};
ghost use Rattle.finding_lines.specs.declared.line.Line.{Line};
ghost use Rattle.scan_replay.specs.Duos.{with_pair};
ghost use Rattle.queries.specs.Sets.{members};
ghost use Rattle.queries.specs.Settings.{left_of};
ghost use Rattle.pair_trial.specs.Trials.{setting_in};
ghost use Rattle.finding_report.specs.Noted.{left_by, left_behind, pair_numbers, scan_rows};
ghost use Rattle.finding_explain.specs.Notable.{CanRun, HasScan};

use finding_check::split_at_most;
use finding_lines::Line;
use finding_report::Notes;
use pair_trial::{Trial, keep};
use plc_types::Value;
use queries::CandidateSet;
use std::alloc::AllocError;

// Takes those out of a set that fail after a scan, if it can be run.
fn drop_failing(
    trial: &mut Trial,
    set: &mut CandidateSet,
    old: &[Value],
    new: &[Value],
    row: &[Value],
)
    ensures left { (setting_in trial.old).in_range (record { old = old.now; new = new.now }) ≡ true → (setting_in trial.old).allowed row.now (record { old = old.now; new = new.now }) ≡ true
        → members set.new ≡ left_of (setting_in trial.old) (members set.old) ((setting_in trial.old).after row.now (record { old = old.now; new = new.now })) }
    ensures kept { trial.new ≡ with_pair trial.new.pair trial.old }
{
    if !trial.pair_fits(old, new) {
        return;
    }
    trial.set_pair(old, new);
    if !trial.allowed(row) {
        return;
    }
    trial.step(row);
    keep(trial, set);
}

// Takes those out of a set that a DROP line drops.
fn drop_by(trial: &mut Trial, set: &mut CandidateSet, numbers: &[Value])
    ensures left { CanRun (setting_in trial.old) numbers.now → members set.new ≡ left_by (setting_in trial.old) (members set.old) numbers.now }
    ensures kept { trial.new ≡ with_pair trial.new.pair trial.old }
{
    let (old, rest) = split_at_most(numbers, trial.old_cells());
    let (new, row) = split_at_most(rest, trial.new_cells());
    drop_failing(trial, set, old, new, row);
}

/// Takes what a report needs from a line.
pub(crate) fn note(trial: &mut Trial, notes: &mut Notes, line: Line) -> Result<(), AllocError>
    ensures set { OnOk result (HasScan (setting_in trial.old) line → (rest : List Line) → left_behind (setting_in trial.old) (members notes.new.set) rest ≡ left_behind (setting_in trial.old) (members notes.old.set) (line ∷ rest)) }
    ensures pair { OnOk result ((rest : List Line) → option_or notes.new.pair (pair_numbers rest) ≡ option_or notes.old.pair (pair_numbers (line ∷ rest))) }
    ensures scans { OnOk result ((rest : List Line) → notes.new.scans.items ++ scan_rows rest ≡ notes.old.scans.items ++ scan_rows (line ∷ rest)) }
    ensures kept { trial.new ≡ with_pair trial.new.pair trial.old }
{
    match line {
        Line::Dropping(numbers) => {
            drop_by(trial, &mut notes.set, numbers.as_slice());
            Ok(())
        }
        Line::Pair(numbers) => {
            if notes.pair.is_none() {
                notes.pair = Some(numbers);
            }
            Ok(())
        }
        Line::Scan(row) => {
            notes.scans.push(row)?;
            Ok(())
        }
        _ => Ok(()),
    }
}
