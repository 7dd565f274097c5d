// The command `verify`.
ghost use Rattle.std.specs.Prelude.{false, ◌≡◌, ◌≢◌, ◌≤◌, ◌⊎◌};
ghost use Rattle.outside.specs.Causes.{Rose, NoneFell};
ghost use Rattle.outside.specs.Contents.{OthersStay};
ghost use Rattle.outside.specs.States.{change};
ghost use Rattle.command_answers.specs.Answers.{Answers};
ghost use Rattle.command_answers.specs.Ends.{Ends, IsComplete};
ghost use Rattle.comparison_files.specs.Texts.{Texts, AreThreeTold, OneOfThreeRose};
ghost use Rattle.comparison_files.specs.KeptTexts.{AreKept};
ghost use Rattle.comparison_files.specs.Accepting.{AreStated};
ghost use Rattle.comparison_files.specs.Held.{comparison_in};
ghost use Rattle.comparison_files.specs.Scans.{AreScansOf};
ghost use Rattle.finding_answers.specs.Verdicts.{IsOfVerdict};
ghost use Rattle.verify_command.specs.Reports.{asking_to_verify, HasFailed, IsLeft, VerifyReports, ShowsSaved};

use crate::finding::answer_finding;
use clause_core::Decider;
use command_answers::{Status, put_last};
use comparison_files::{
    Compared, KeptTexts, Scans, StatedTexts, accept_texts, circuits_of, put_fault, read_texts,
};
use inductive_search::InductiveSearch;
use outside::{OutErr, Shelf, Sink};
use std::alloc::Global;

// Makes the circuits of what is compared, and saves the finding by them.
fn answer_compared<D: Decider, S: Shelf, K: Sink>(
    alloc: Global,
    decider: &mut D,
    compared: &Compared,
    scans: Scans,
    finding: &str,
    shelf: &mut S,
    out: &mut K,
) -> Status
    requires scans { AreScansOf (comparison_in compared.now) scans }
    requires unfailed { (K.state out.old).put_failed ≡ false }
    ensures others { OthersStay (S.state shelf.old).file (S.state shelf.new).file finding.now }
    ensures left { (t : Texts) → AreStated t (comparison_in compared.now) → IsLeft t (change (S.state shelf.old) (S.state shelf.new)) finding.now }
    ensures answer { (t : Texts) → AreStated t (comparison_in compared.now)
        → Answers (VerifyReports t (change (S.state shelf.old) (S.state shelf.new)) finding.now) ⊥ result (K.state out.old).taken (K.state out.new).taken }
    ensures usage { result ≢ Status.Usage }
    ensures read_fault { result ≢ Status.ReadFault }
    ensures write_fault { result ≡ Status.WriteFault → HasFailed (change (S.state shelf.old) (S.state shelf.new)) finding.now ⊎ Rose (K.state out.old).faults (K.state out.new).faults }
    ensures reads { NoneFell (S.state shelf.old).read_faults (S.state shelf.new).read_faults }
    ensures writes { NoneFell (S.state shelf.old).write_faults (S.state shelf.new).write_faults }
    ensures faults { (K.state out.old).faults ≤ (K.state out.new).faults }
{
    match circuits_of(alloc, compared, scans) {
        Ok(circuits) => {
            let mut search = InductiveSearch::new(alloc, circuits.parts(), circuits.product());
            answer_finding(
                alloc,
                decider,
                compared,
                &circuits,
                &mut search,
                finding,
                shelf,
                out,
            )
        }
        Err(fault) => put_fault(alloc, fault, out),
    }
}

// Saves the finding on what kept texts state.
fn answer_texts<D: Decider, S: Shelf, K: Sink>(
    alloc: Global,
    decider: &mut D,
    texts: &KeptTexts,
    finding: &str,
    shelf: &mut S,
    out: &mut K,
) -> Status
    requires unfailed { (K.state out.old).put_failed ≡ false }
    ensures others { OthersStay (S.state shelf.old).file (S.state shelf.new).file finding.now }
    ensures left { (t : Texts) → AreKept texts.now t → IsLeft t (change (S.state shelf.old) (S.state shelf.new)) finding.now }
    ensures answer { (t : Texts) → AreKept texts.now t
        → Answers (VerifyReports t (change (S.state shelf.old) (S.state shelf.new)) finding.now) ⊥ result (K.state out.old).taken (K.state out.new).taken }
    ensures usage { result ≢ Status.Usage }
    ensures read_fault { result ≢ Status.ReadFault }
    ensures write_fault { result ≡ Status.WriteFault → HasFailed (change (S.state shelf.old) (S.state shelf.new)) finding.now ⊎ Rose (K.state out.old).faults (K.state out.new).faults }
    ensures reads { NoneFell (S.state shelf.old).read_faults (S.state shelf.new).read_faults }
    ensures writes { NoneFell (S.state shelf.old).write_faults (S.state shelf.new).write_faults }
    ensures faults { (K.state out.old).faults ≤ (K.state out.new).faults }
{
    match accept_texts(alloc, texts) {
        Ok(stated) => {
            let StatedTexts { compared, scans } = stated;
            answer_compared(alloc, decider, &compared, scans, finding, shelf, out)
        }
        Err(fault) => put_fault(alloc, fault, out),
    }
}

// Reads the texts, and saves the finding on what they state.
fn answer_files<D: Decider, S: Shelf, K: Sink>(
    alloc: Global,
    decider: &mut D,
    old: &str,
    new: &str,
    relation: &str,
    finding: &str,
    shelf: &mut S,
    out: &mut K,
) -> Status
    requires reads { (S.state shelf.old).read_failed ≡ false }
    requires puts { (K.state out.old).put_failed ≡ false }
    ensures others { OthersStay (S.state shelf.old).file (S.state shelf.new).file finding.now }
    ensures unread { result ≡ Status.ReadFault → (S.state shelf.new).file ≡ (S.state shelf.old).file }
    ensures left { (t : Texts) → AreThreeTold (S.state shelf.old).file old.now new.now relation.now t → IsLeft t (change (S.state shelf.old) (S.state shelf.new)) finding.now }
    ensures answer { (t : Texts) → AreThreeTold (S.state shelf.old).file old.now new.now relation.now t
        → Answers (VerifyReports t (change (S.state shelf.old) (S.state shelf.new)) finding.now) (OneOfThreeRose (S.state shelf.old).read_faults (S.state shelf.new).read_faults old.now new.now relation.now) result (K.state out.old).taken (K.state out.new).taken }
    ensures usage { result ≢ Status.Usage }
    ensures read_fault { result ≡ Status.ReadFault → OneOfThreeRose (S.state shelf.old).read_faults (S.state shelf.new).read_faults old.now new.now relation.now }
    ensures write_fault { result ≡ Status.WriteFault → HasFailed (change (S.state shelf.old) (S.state shelf.new)) finding.now ⊎ Rose (K.state out.old).faults (K.state out.new).faults }
    ensures reads { NoneFell (S.state shelf.old).read_faults (S.state shelf.new).read_faults }
    ensures writes { NoneFell (S.state shelf.old).write_faults (S.state shelf.new).write_faults }
    ensures faults { (K.state out.old).faults ≤ (K.state out.new).faults }
{
    match read_texts(alloc, old, new, relation, shelf) {
        Ok(texts) => answer_texts(alloc, decider, &texts, finding, shelf, out),
        Err(OutErr::Fault) => put_last(out, "READ FAULT\n", Status::ReadFault),
        Err(OutErr::Memory) => put_last(out, "MEMORY\n", Status::Memory),
    }
}

/// Decides two programs and a relation by this decider, saves the finding that shows the verdict, and says how that ends. OLD, NEW and
/// REL are read whole before any rule is tested. The finding is made only once all three are accepted, and written line by line.
pub fn answer_verify<D: Decider, S: Shelf, K: Sink>(
    alloc: Global,
    decider: &mut D,
    old: &str,
    new: &str,
    relation: &str,
    finding: &str,
    shelf: &mut S,
    out: &mut K,
) -> Status
    // No read and no put has failed before, and none follows one that failed.
    requires reads { (S.state shelf.old).read_failed ≡ false }
    requires puts { (K.state out.old).put_failed ≡ false }

    // No file but the finding changes, and none where a read failed. Whatever the answer, the finding is as at entry, or what is told of it is a
    // part of a finding on what the texts state. The bytes on the sink and the status are those of a report on the three texts, where these are
    // told. A fault comes only where a count rose, and no count falls.
    ensures ends { Ends (asking_to_verify old.now new.now relation.now finding.now) result (change (S.state shelf.old) (S.state shelf.new)) (K.state out.old) (K.state out.new) }
    ensures usage { result ≢ Status.Usage }

    // Where the status is that of a verdict, the finding was saved and is judged valid with it, and it is the verdict of the model on
    // what the texts state, or SPENT with its log; and where a line on reach is behind it, that is the reach of the model, or the query for one
    // row more is spent.
    ensures saved { (t : Texts) → (asking_to_verify old.now new.now relation.now finding.now).Tells (S.state shelf.old) t → IsOfVerdict result
        → ShowsSaved t (change (S.state shelf.old) (S.state shelf.new)) finding.now result (K.state out.old).taken (K.state out.new).taken }

    // Where no count rose, the answer is a whole report, or memory was wanting.
    ensures complete { IsComplete (asking_to_verify old.now new.now relation.now finding.now) result (change (S.state shelf.old) (S.state shelf.new)) (K.state out.old) (K.state out.new) }
{
    answer_files(alloc, decider, old, new, relation, finding, shelf, out)
}
