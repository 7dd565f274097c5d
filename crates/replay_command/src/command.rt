// The command `replay`.
ghost use Rattle.std.specs.Prelude.{false, ◌≡◌, ◌≢◌, ◌≤◌, IfOk, IsErrOf};
ghost use Rattle.outside.specs.Causes.{Rose, NoneFell};
ghost use Rattle.outside.specs.States.{change};
ghost use Rattle.command_answers.specs.Answers.{Answers};
ghost use Rattle.command_answers.specs.Ends.{Ends, IsComplete};
ghost use Rattle.command_files.specs.Texts.{Texts, AreFourTold, OneOfFourRose};
ghost use Rattle.replay_command.specs.Accepted.{AreAllKept};
ghost use Rattle.replay_command.specs.Reports.{Reports, asking_to_replay};

use crate::accept::ReplayTexts;
use crate::answer::put_answer;
use command_answers::{Status, put_last};
use command_files::{read_text, read_texts};
use outside::{OutErr, Shelf, Sink};
use std::alloc::Global;

// Reads the four files whole, in their order.
fn read_all<S: Shelf>(
    alloc: Global,
    old: &str,
    new: &str,
    relation: &str,
    trace: &str,
    shelf: &mut S,
) -> Result<ReplayTexts, OutErr>
    requires unfailed { (S.state shelf.old).read_failed ≡ false }
    ensures texts { (t : Texts) → AreFourTold (S.state shelf.old).file old.now new.now relation.now trace.now t t.trace → IfOk result (λ kept. AreAllKept kept t) }
    ensures kept { (S.state shelf.new).file ≡ (S.state shelf.old).file }
    ensures fault { IsErrOf result OutErr.Fault → OneOfFourRose (S.state shelf.old).read_faults (S.state shelf.new).read_faults old.now new.now relation.now trace.now }
    ensures reads { NoneFell (S.state shelf.old).read_faults (S.state shelf.new).read_faults }
    ensures writes { NoneFell (S.state shelf.old).write_faults (S.state shelf.new).write_faults }
{
    let three = read_texts(alloc, old, new, relation, shelf)?;
    let trace = read_text(alloc, shelf, trace)?;
    Ok(ReplayTexts { three, trace })
}

// The answer, whole or not.
fn answer_files<S: Shelf, K: Sink>(
    alloc: Global,
    old: &str,
    new: &str,
    relation: &str,
    trace: &str,
    shelf: &mut S,
    out: &mut K,
) -> Status
    requires reads { (S.state shelf.old).read_failed ≡ false }
    requires puts { (K.state out.old).put_failed ≡ false }
    ensures kept { (S.state shelf.new).file ≡ (S.state shelf.old).file }
    ensures answer { (t : Texts) → AreFourTold (S.state shelf.old).file old.now new.now relation.now trace.now t t.trace
        → Answers (Reports t) (OneOfFourRose (S.state shelf.old).read_faults (S.state shelf.new).read_faults old.now new.now relation.now trace.now) result (K.state out.old).taken (K.state out.new).taken }
    ensures usage { result ≢ Status.Usage }
    ensures read_fault { result ≡ Status.ReadFault → OneOfFourRose (S.state shelf.old).read_faults (S.state shelf.new).read_faults old.now new.now relation.now trace.now }
    ensures write_fault { result ≡ Status.WriteFault → Rose (K.state out.old).faults (K.state out.new).faults }
    ensures reads { NoneFell (S.state shelf.old).read_faults (S.state shelf.new).read_faults }
    ensures writes { NoneFell (S.state shelf.old).write_faults (S.state shelf.new).write_faults }
    ensures faults { (K.state out.old).faults ≤ (K.state out.new).faults }
{
    match read_all(alloc, old, new, relation, trace, shelf) {
        Ok(texts) => put_answer(alloc, &texts, out),
        Err(OutErr::Fault) => put_last(out, "READ FAULT\n", Status::ReadFault),
        Err(OutErr::Memory) => put_last(out, "MEMORY\n", Status::Memory),
    }
}

/// Runs both programs on the rows of a trace, with a line for each scan, and says how that ends.
pub fn answer_replay<S: Shelf, K: Sink>(
    alloc: Global,
    old: &str,
    new: &str,
    relation: &str,
    trace: &str,
    shelf: &mut S,
    out: &mut K,
) -> Status
    // No read and no put has failed before, and none follows one that failed.
    requires reads { (S.state shelf.old).read_failed ≡ false }
    requires puts { (K.state out.old).put_failed ≡ false }

    // No file changes; the bytes on the sink and the status are those of the report on the four texts, where these are told; a fault comes
    // only where a count rose, and no count falls.
    ensures ends { Ends (asking_to_replay old.now new.now relation.now trace.now) result (change (S.state shelf.old) (S.state shelf.new)) (K.state out.old) (K.state out.new) }
    ensures usage { result ≢ Status.Usage }

    // Where no count rose, the answer is the whole report, or memory was wanting.
    ensures complete { IsComplete (asking_to_replay old.now new.now relation.now trace.now) result (change (S.state shelf.old) (S.state shelf.new)) (K.state out.old) (K.state out.new) }
{
    answer_files(alloc, old, new, relation, trace, shelf, out)
}
