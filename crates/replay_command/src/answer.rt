// What is answered: the last text of a run, and a whole replay on the sink.
ghost use Rattle.std.specs.Prelude.{false, ◌≡◌, ◌≢◌, ◌≤◌, List, ℕ, Option, IfOk, string_bytes};
ghost use Rattle.outside.specs.Causes.{Rose};
ghost use Rattle.outside.specs.Contents.{extended};
ghost use Rattle.program_tree.specs.View.{program_view};
ghost use Rattle.scan_model.specs.Pairs.{relation_view};
ghost use Rattle.scan_replay.specs.Duos.{AreComparable};
ghost use Rattle.command_answers.specs.Answers.{Answers};
ghost use Rattle.command_files.specs.Texts.{Texts};
ghost use Rattle.replay_command.specs.Lines.{ending_line};
ghost use Rattle.replay_command.specs.Outcomes.{Outcome, outcome_of};
ghost use Rattle.replay_command.specs.Played.{outcome_report};
ghost use Rattle.replay_command.specs.Reports.{ending_status, Reports};
ghost use Rattle.replay_command.specs.Accepted.{AreAllKept};

use crate::accept::{Replay, ReplayTexts, accept};
use crate::play::{PlayError, play};
use crate::show::show_ending;
use command_answers::{Status, put_last, put_refusal};
use command_files::AcceptError;
use outside::{OutErr, Sink};
use scan_model::Ending;
use std::alloc::{AllocError, Global};

fn status_of(ending: Ending) -> Status
    ensures { result ≡ ending_status ending }
{
    match ending {
        Ending::Related(_) => Status::Replayed,
        Ending::Unrelated(_) => Status::Unrelated,
        Ending::NotAllowed(_) => Status::NotAllowed,
    }
}

fn ending_line(alloc: Global, ending: Ending) -> Result<String, AllocError>
    ensures { IfOk result (λ line. string_bytes line ≡ ending_line ending) }
{
    let mut line = String::new(alloc);
    show_ending(&mut line, ending)?;
    Ok(line)
}

// Puts the line on how a replay ended, behind its other lines.
fn put_ending<K: Sink>(alloc: Global, ending: Ending, out: &mut K) -> Status
    requires unfailed { (K.state out.old).put_failed ≡ false }
    ensures answer { (told : Option (List ℕ)) (o : Outcome) → (K.state out.old).taken ≡ extended told o.lines → ending ≡ o.ending → Answers (λ r. r ≡ outcome_report o) ⊥ result told (K.state out.new).taken }
    ensures no_usage { result ≢ Status.Usage }
    ensures no_read_fault { result ≢ Status.ReadFault }
    ensures cause { result ≡ Status.WriteFault → Rose (K.state out.old).faults (K.state out.new).faults }
    ensures later { (K.state out.old).faults ≤ (K.state out.new).faults }
{
    match ending_line(alloc, ending) {
        Ok(line) => put_last(out, line.as_str(), status_of(ending)),
        Err(_) => put_last(out, "MEMORY\n", Status::Memory),
    }
}

// Runs the rows, and puts the lines of the run.
fn put_replay<K: Sink>(alloc: Global, replay: &Replay, out: &mut K) -> Status
    requires comparable { AreComparable replay.now.old replay.now.new replay.now.relation }
    requires unfailed { (K.state out.old).put_failed ≡ false }
    ensures answer { Answers (λ r. r ≡ outcome_report (outcome_of (program_view replay.now.old) (program_view replay.now.new) (relation_view replay.now.relation) replay.now.rows)) ⊥ result (K.state out.old).taken (K.state out.new).taken }
    ensures no_usage { result ≢ Status.Usage }
    ensures no_read_fault { result ≢ Status.ReadFault }
    ensures cause { result ≡ Status.WriteFault → Rose (K.state out.old).faults (K.state out.new).faults }
    ensures later { (K.state out.old).faults ≤ (K.state out.new).faults }
{
    match play(
        alloc,
        &replay.old,
        &replay.new,
        &replay.relation,
        &replay.rows,
        out,
    ) {
        Ok(ending) => put_ending(alloc, ending, out),
        Err(PlayError::Sink(OutErr::Fault)) => Status::WriteFault,
        Err(PlayError::Sink(OutErr::Memory)) => Status::Memory,
        Err(PlayError::Memory) => put_last(out, "MEMORY\n", Status::Memory),
    }
}

/// Puts the report on four texts.
pub fn put_answer<K: Sink>(alloc: Global, texts: &ReplayTexts, out: &mut K) -> Status
    requires unfailed { (K.state out.old).put_failed ≡ false }
    ensures answer { (t : Texts) → AreAllKept texts.now t → Answers (Reports t) ⊥ result (K.state out.old).taken (K.state out.new).taken }
    ensures no_usage { result ≢ Status.Usage }
    ensures no_read_fault { result ≢ Status.ReadFault }
    ensures cause { result ≡ Status.WriteFault → Rose (K.state out.old).faults (K.state out.new).faults }
    ensures later { (K.state out.old).faults ≤ (K.state out.new).faults }
{
    match accept(alloc, texts) {
        Ok(replay) => put_replay(alloc, &replay, out),
        Err(AcceptError::Refused(source, refusal)) => put_refusal(alloc, source, refusal, out),
        Err(AcceptError::Memory) => put_last(out, "MEMORY\n", Status::Memory),
    }
}
