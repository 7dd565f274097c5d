// A whole finding.
ghost use Rattle.std.specs.Prelude.{false, ◌≡◌, ◌≤◌, ◌^◌, IfSome, OnOk};
ghost use Rattle.outside.specs.Causes.{NoneFell};
ghost use Rattle.finding_file.specs.Reading.{Agrees};
ghost use Rattle.finding_file.specs.Causes.{IsCausedBy};
ghost use Rattle.queries.specs.Comparisons.{IsComparison};
ghost use Rattle.pair_trial.specs.Trials.{comparison_of, setting_in};
ghost use Rattle.judgement.specs.Findings.{IsJudged};
ghost use Rattle.judgement.specs.Shown.{ShowsVerdict};
ghost use Rattle.finding_check.specs.Endings.{reason_at, end_of_file, stopped};
ghost use Rattle.finding_check.specs.Stages.{place_of};
ghost use Rattle.scan_model.specs.Pairs.{Pair};

use crate::places::judge_line;
use crate::stage::{Moved, Stage};
use finding_file::{FindingReader, ReadErr};
use judgement::{JudgeErr, Judged, Reason};
use outside::Shelf;
use pair_trial::Trial;
use queries::Queries;
use std::alloc::Global;

/// A finding has at most as many lines as bytes.
pub const MOST_LINES: u64 = 1_073_741_824;

// The test that a line fails which is broken so: behind the END line it fails as any byte does.
fn reason_at(stage: &Stage, reason: Reason) -> Reason
    ensures { (pair : Pair) → result ≡ reason_at (place_of stage.now pair) reason }
{
    match stage {
        Stage::Finished(_, _) => Reason::B12,
        _ => reason,
    }
}

// What is said where the file ends.
fn end_of_file(stage: &Stage, line: u64) -> Judged
    ensures { (pair : Pair) → result ≡ end_of_file (place_of stage.now pair) line }
{
    match stage {
        Stage::Finished(reach, verdict) => Judged::Valid(*verdict, *reach),
        _ => Judged::Bad {
            line,
            reason: Reason::B13,
        },
    }
}

// What is said where no line was read.
fn stopped(stage: &Stage, line: u64, error: ReadErr) -> Result<Judged, JudgeErr>
    ensures { (pair : Pair) → result ≡ stopped (place_of stage.now pair) line error }
{
    match error {
        ReadErr::Fault => Err(JudgeErr::Fault),
        ReadErr::Memory => Err(JudgeErr::Memory),
        ReadErr::M8 => Err(JudgeErr::M8),
        ReadErr::Spelling(_) => Ok(Judged::Bad {
            line,
            reason: reason_at(stage, Reason::B1),
        }),
        ReadErr::Unended(_) => Ok(Judged::Bad {
            line,
            reason: reason_at(stage, Reason::B13),
        }),
    }
}

/// Judges a finding: it is valid, with the verdict of its END line, or has a first line that fails a test, or a line is too
/// long. The reader has read nothing. It keeps the clauses of one log and one line.
pub fn judge<Q: Queries, S: Shelf>(
    alloc: Global,
    trial: &mut Trial,
    queries: &Q,
    reader: &mut FindingReader,
    shelf: &mut S,
) -> Result<Judged, JudgeErr>
    requires compared { Q.compared queries.now ≡ comparison_of trial.old }
    requires comparison { IsComparison (comparison_of trial.old) }
    requires limit { reader.old.limit ≤ 2 ^ 30 }
    requires first_byte { reader.old.at ≡ 0 }
    requires first_line { reader.old.number ≡ 1 }
    requires agrees { IfSome ((S.state shelf.old).file reader.old.name) (Agrees reader.old) }
    requires unfailed { (S.state shelf.old).read_failed ≡ false }
    ensures exact { IfSome ((S.state shelf.old).file reader.old.name) (λ file. IsJudged (setting_in trial.old) (Q.formula queries.now) reader.old.limit file result) }
    ensures sound { ShowsVerdict (comparison_of trial.old) (Q.formula queries.now) result }
    ensures kept { (S.state shelf.new).file ≡ (S.state shelf.old).file }
    ensures cause { IsCausedBy JudgeErr.Fault (S.state shelf.old).read_faults (S.state shelf.new).read_faults reader.old.name result }
    ensures writes { NoneFell (S.state shelf.old).write_faults (S.state shelf.new).write_faults }
    ensures unfailed { OnOk result ((S.state shelf.new).read_failed ≡ false) }
{
    queries.laws();
    let mut stage = Stage::Top;
    'lines: for before in 0..MOST_LINES + 1 {
        let found = match reader.next(shelf) {
            Ok(found) => found,
            Err(error) => return stopped(&stage, before + 1, error),
        };
        let Some(line) = found else {
            return Ok(end_of_file(&stage, before + 1));
        };
        match judge_line(alloc, trial, queries, stage, &line)? {
            Moved::Goes(then) => stage = then,
            Moved::Fails(reason) => {
                return Ok(Judged::Bad {
                    line: before + 1,
                    reason,
                });
            }
        }
    }
    Err(JudgeErr::M8)
}
