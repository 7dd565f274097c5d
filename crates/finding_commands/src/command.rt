// What a command on a finding does with the four files.
ghost use Rattle.std.specs.Prelude.{false, ◌≡◌, ◌≢◌, ◌≤◌, Some};
ghost use Rattle.outside.specs.Causes.{Rose, NoneFell};
ghost use Rattle.command_answers.specs.Answers.{Answers};
ghost use Rattle.comparison_files.specs.Texts.{Texts, AreFourTold, OneOfFourRose};
ghost use Rattle.comparison_files.specs.KeptTexts.{AreKept};
ghost use Rattle.comparison_files.specs.Accepting.{AreStated};
ghost use Rattle.comparison_files.specs.Held.{comparison_in};
ghost use Rattle.comparison_files.specs.Scans.{AreScansOf};
ghost use Rattle.finding_commands.specs.Reports.{ReportsOn};

use crate::finding_command::FindingCommand;
use command_answers::{Status, put_last};
use comparison_files::{
    Compared, KeptTexts, Scans, StatedTexts, accept_texts, circuits_of, put_fault, read_texts,
};
use outside::{OutErr, Shelf, Sink};
use std::alloc::Global;

// Makes the circuits of what is compared, and judges the finding by them.
fn answer_compared<C: FindingCommand, S: Shelf, K: Sink>(
    alloc: Global,
    command: &C,
    compared: &Compared,
    scans: Scans,
    finding: &str,
    shelf: &mut S,
    out: &mut K,
) -> Status
    requires scans { AreScansOf (comparison_in compared.now) scans }
    requires reads { (S.state shelf.old).read_failed ≡ false }
    requires puts { (K.state out.old).put_failed ≡ false }
    ensures kept { (S.state shelf.new).file ≡ (S.state shelf.old).file }
    ensures answer { (t : Texts) → AreStated t (comparison_in compared.now) → (S.state shelf.old).file finding.now ≡ Some t.finding
        → Answers (ReportsOn C.reports t) (Rose ((S.state shelf.old).read_faults finding.now) ((S.state shelf.new).read_faults finding.now)) result (K.state out.old).taken (K.state out.new).taken }
    ensures usage { result ≢ Status.Usage }
    ensures read_fault { result ≡ Status.ReadFault → Rose ((S.state shelf.old).read_faults finding.now) ((S.state shelf.new).read_faults finding.now) }
    ensures write_fault { result ≡ Status.WriteFault → Rose (K.state out.old).faults (K.state out.new).faults }
    ensures reads { NoneFell (S.state shelf.old).read_faults (S.state shelf.new).read_faults }
    ensures writes { NoneFell (S.state shelf.old).write_faults (S.state shelf.new).write_faults }
    ensures faults { (K.state out.old).faults ≤ (K.state out.new).faults }
{
    match circuits_of(alloc, compared, scans) {
        Ok(circuits) => command.answer(alloc, compared, &circuits, finding, shelf, out),
        Err(fault) => put_fault(alloc, fault, out),
    }
}

// Judges the finding by kept texts.
fn answer_texts<C: FindingCommand, S: Shelf, K: Sink>(
    alloc: Global,
    command: &C,
    texts: &KeptTexts,
    finding: &str,
    shelf: &mut S,
    out: &mut K,
) -> Status
    requires reads { (S.state shelf.old).read_failed ≡ false }
    requires puts { (K.state out.old).put_failed ≡ false }
    ensures kept { (S.state shelf.new).file ≡ (S.state shelf.old).file }
    ensures answer { (t : Texts) → AreKept texts.now t → (S.state shelf.old).file finding.now ≡ Some t.finding
        → Answers (ReportsOn C.reports t) (Rose ((S.state shelf.old).read_faults finding.now) ((S.state shelf.new).read_faults finding.now)) result (K.state out.old).taken (K.state out.new).taken }
    ensures usage { result ≢ Status.Usage }
    ensures read_fault { result ≡ Status.ReadFault → Rose ((S.state shelf.old).read_faults finding.now) ((S.state shelf.new).read_faults finding.now) }
    ensures write_fault { result ≡ Status.WriteFault → Rose (K.state out.old).faults (K.state out.new).faults }
    ensures reads { NoneFell (S.state shelf.old).read_faults (S.state shelf.new).read_faults }
    ensures writes { NoneFell (S.state shelf.old).write_faults (S.state shelf.new).write_faults }
    ensures faults { (K.state out.old).faults ≤ (K.state out.new).faults }
{
    match accept_texts(alloc, texts) {
        Ok(stated) => {
            let StatedTexts { compared, scans } = stated;
            answer_compared(alloc, command, &compared, scans, finding, shelf, out)
        }
        Err(fault) => put_fault(alloc, fault, out),
    }
}

/// Carries out a command on a finding. OLD, NEW and REL are read whole before any rule is tested.
pub fn answer_on_finding<C: FindingCommand, S: Shelf, K: Sink>(
    alloc: Global,
    command: &C,
    old: &str,
    new: &str,
    relation: &str,
    finding: &str,
    shelf: &mut S,
    out: &mut K,
) -> Status
    // No read and no put has failed before, and none follows one that failed.
    requires reads { (S.state shelf.old).read_failed ≡ false }
    requires puts { (K.state out.old).put_failed ≡ false }

    // No file changes.
    ensures kept { (S.state shelf.new).file ≡ (S.state shelf.old).file }

    // The bytes on the sink and the status are those of the report on the four texts, where these are told.
    ensures answer { (t : Texts) → AreFourTold (S.state shelf.old).file old.now new.now relation.now finding.now t t.finding
        → Answers (ReportsOn C.reports t) (OneOfFourRose (S.state shelf.old).read_faults (S.state shelf.new).read_faults old.now new.now relation.now finding.now) result (K.state out.old).taken (K.state out.new).taken }
    ensures usage { result ≢ Status.Usage }

    // A fault comes only where a count rose, and no count falls.
    ensures read_fault { result ≡ Status.ReadFault → OneOfFourRose (S.state shelf.old).read_faults (S.state shelf.new).read_faults old.now new.now relation.now finding.now }
    ensures write_fault { result ≡ Status.WriteFault → Rose (K.state out.old).faults (K.state out.new).faults }
    ensures reads { NoneFell (S.state shelf.old).read_faults (S.state shelf.new).read_faults }
    ensures writes { NoneFell (S.state shelf.old).write_faults (S.state shelf.new).write_faults }
    ensures faults { (K.state out.old).faults ≤ (K.state out.new).faults }
{
    match read_texts(alloc, old, new, relation, shelf) {
        Ok(texts) => answer_texts(alloc, command, &texts, finding, shelf, out),
        Err(OutErr::Fault) => put_last(out, "READ FAULT\n", Status::ReadFault),
        Err(OutErr::Memory) => put_last(out, "MEMORY\n", Status::Memory),
    }
}
