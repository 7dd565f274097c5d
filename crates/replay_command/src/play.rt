// A replay on the sink: each scan's line is put as soon as the scan is done.
ghost use Rattle.std.specs.Prelude.{false, ◌≡◌, ◌≤◌, ◌+◌, IfOk, OnOk, OnErr, Err};
ghost use Rattle.outside.specs.Causes.{Rose};
ghost use Rattle.outside.specs.Contents.{extended};
ghost use Rattle.outside.specs.declared.OutErr.TheVariants.{Fault};
ghost use Rattle.program_tree.specs.View.{program_view};
ghost use Rattle.scan_model.specs.Pairs.{relation_view};
ghost use Rattle.scan_replay.specs.Duos.{AreComparable};
ghost use Rattle.replay_command.specs.Lines.{scan_line};
ghost use Rattle.replay_command.specs.Outcomes.{outcome_of};
ghost use Rattle.command_answers.specs.Puts.{PutsPart};

use crate::show::show_scan;
use command_answers::put_text;
use outside::{OutErr, Sink};
use program_tree::Program;
use scan_model::{Ending, Relation};
use scan_replay::{Duo, Side};
use std::alloc::{AllocError, Global};
use thiserror::Error;
use trace_rows::TraceRows;

/// Why a replay stopped before its end.
#[derive(Debug, Drop, Error)]
pub enum PlayError {
    #[error("a line could not be put")]
    Sink(OutErr),
    #[error("memory was wanting")]
    Memory,
}

impl From<AllocError> for PlayError {
    ghost use Rattle.replay_command.specs.declared.play.PlayError.TheVariants.{Memory};

    ghost from_gives = { λ _ e. e ≡ Memory };

    fn from(_: AllocError) -> Self {
        PlayError::Memory
    }
}

// Puts the line of a scan, which it makes in a text that is kept for the next.
fn put_scan<K: Sink>(
    out: &mut K,
    line: &mut String,
    number: usize,
    old: &Program,
    new: &Program,
    duo: &Duo<'_>,
) -> Result<(), PlayError>
    requires unfailed { (K.state out.old).put_failed ≡ false }
    ensures whole { OnOk result ((K.state out.new).taken ≡ extended (K.state out.old).taken (scan_line (program_view old.now) (program_view new.now) number duo.now.pair)) }
    ensures part { OnErr result (PutsPart (K.state out.old).taken (K.state out.new).taken (scan_line (program_view old.now) (program_view new.now) number duo.now.pair)) }
    ensures later { (K.state out.old).faults ≤ (K.state out.new).faults }
    ensures cause { result ≡ Err (PlayError.Sink Fault) → Rose (K.state out.old).faults (K.state out.new).faults }
    ensures unfailed { OnOk result ((K.state out.new).put_failed ≡ false) }
    ensures memory { result ≡ Err PlayError.Memory → (K.state out.new).put_failed ≡ false }
{
    line.clear();
    show_scan(
        line,
        number,
        old,
        duo.state(Side::Old),
        new,
        duo.state(Side::New),
    )?;
    match put_text(out, line.as_str()) {
        Ok(()) => Ok(()),
        Err(error) => Err(PlayError::Sink(error)),
    }
}

/// Runs both programs on the rows, and puts a line for each row that was run.
pub fn play<K: Sink>(
    alloc: Global,
    old: &Program,
    new: &Program,
    relation: &Relation,
    rows: &TraceRows,
    out: &mut K,
) -> Result<Ending, PlayError>
    requires comparable { AreComparable old.now new.now relation.now }
    requires unfailed { (K.state out.old).put_failed ≡ false }
    ensures whole { IfOk result (λ e. let o = outcome_of (program_view old.now) (program_view new.now) (relation_view relation.now) rows.now in ((K.state out.new).taken ≡ extended (K.state out.old).taken o.lines) × (e ≡ o.ending)) }
    ensures part { OnErr result (PutsPart (K.state out.old).taken (K.state out.new).taken (outcome_of (program_view old.now) (program_view new.now) (relation_view relation.now) rows.now).lines) }
    ensures later { (K.state out.old).faults ≤ (K.state out.new).faults }
    ensures cause { result ≡ Err (PlayError.Sink Fault) → Rose (K.state out.old).faults (K.state out.new).faults }
    ensures unfailed { OnOk result ((K.state out.new).put_failed ≡ false) }
    ensures memory { result ≡ Err PlayError.Memory → (K.state out.new).put_failed ≡ false }
{
    let mut duo = Duo::new(alloc, old, new, relation)?;
    let mut line = String::new(alloc);
    for done in 0..rows.len() {
        let row = rows.row(done);
        if !duo.allowed(row) {
            return Ok(Ending::NotAllowed(done + 1));
        }
        duo.step(row);
        put_scan(out, &mut line, done + 1, old, new, &duo)?;
        if !duo.related() {
            return Ok(Ending::Unrelated(done + 1));
        }
    }
    Ok(Ending::Related(rows.len()))
}
