// The lines of a finding that was judged valid, read once more.
ghost use Rattle.std.specs.Prelude.{false, ◌≡◌, ◌≤◌, ◌^◌, List, [], IfOk, IfSome};
ghost use Rattle.outside.specs.Causes.{NoneFell};
ghost use Rattle.finding_lines.specs.declared.line.Line.{Line};
ghost use Rattle.finding_file.specs.Reading.{Agrees};
ghost use Rattle.finding_file.specs.Causes.{IsCausedBy};
ghost use Rattle.scan_replay.specs.Duos.{with_pair};
ghost use Rattle.queries.specs.Sets.{members};
ghost use Rattle.queries.specs.Settings.{first_set};
ghost use Rattle.pair_trial.specs.Trials.{setting_in};
ghost use Rattle.finding_explain.specs.Notable.{IsFileOf, IsCollected};

use crate::notes::note;
use finding_check::MOST_LINES;
use finding_file::{FindingReader, ReadErr};
use finding_report::Notes;
use outside::Shelf;
use pair_trial::{Trial, first_set};
use std::alloc::{AllocError, Global};

// Notes of no line: the candidates that hold at the start.
fn first_notes(alloc: Global, trial: &mut Trial) -> Result<Notes, AllocError>
    ensures set { IfOk result (λ notes. members notes.set ≡ first_set (setting_in trial.old)) }
    ensures pair { IfOk result (λ notes. notes.pair ≡ None) }
    ensures scans { IfOk result (λ notes. notes.scans.items ≡ []) }
    ensures kept { trial.new ≡ with_pair trial.new.pair trial.old }
{
    let set = first_set(alloc, trial)?;
    Ok(Notes {
        set,
        pair: None,
        scans: Vec::new(alloc),
    })
}

/// Takes what a report needs from each line of a file.
pub(crate) fn collect<S: Shelf>(
    alloc: Global,
    trial: &mut Trial,
    reader: &mut FindingReader,
    shelf: &mut S,
) -> Result<Notes, ReadErr>
    requires limit { reader.old.limit ≤ 2 ^ 30 }
    requires first_byte { reader.old.at ≡ 0 }
    requires agrees { IfSome ((S.state shelf.old).file reader.old.name) (Agrees reader.old) }
    requires unfailed { (S.state shelf.old).read_failed ≡ false }
    ensures noted { IfSome ((S.state shelf.old).file reader.old.name) (λ file. (ls : List Line) → IsFileOf (setting_in trial.old) reader.old.limit file ls → IsCollected (setting_in trial.old) ls result) }
    ensures kept { (S.state shelf.new).file ≡ (S.state shelf.old).file }
    ensures cause { IsCausedBy ReadErr.Fault (S.state shelf.old).read_faults (S.state shelf.new).read_faults reader.old.name result }
    ensures writes { NoneFell (S.state shelf.old).write_faults (S.state shelf.new).write_faults }
{
    let mut notes = first_notes(alloc, trial)?;
    'lines: for before in 0..MOST_LINES + 1 {
        let found = match reader.next(shelf) {
            Ok(found) => found,
            Err(error) => return Err(error),
        };
        let Some(line) = found else {
            return Ok(notes);
        };
        note(trial, &mut notes, line)?;
    }
    Err(ReadErr::M8)
}
