// The command `gen`.
ghost use Rattle.std.specs.Prelude.{false, ◌≡◌, ◌≢◌, ◌≤◌, ◌⊎◌};
ghost use Rattle.outside.specs.Causes.{Rose, NoneFell};
ghost use Rattle.outside.specs.States.{change};
ghost use Rattle.command_answers.specs.Answers.{Answers};
ghost use Rattle.command_answers.specs.Ends.{Ends, IsComplete};
ghost use Rattle.verify_command.specs.comparison_files.Accepting.{AreStated};
ghost use Rattle.verify_command.specs.comparison_files.Held.{comparison_in};
ghost use Rattle.verify_command.specs.comparison_files.Scans.{AreScansOf};
ghost use Rattle.finding_answers.specs.Verdicts.{IsOfVerdict};
ghost use Rattle.gen_command.specs.Made.{texts_of, IsMade};
ghost use Rattle.gen_command.specs.Reports.{asking_to_generate, GenReports, OneFailed, KeepsOthers, LeavesFiles, ShowsMade};

use crate::made::{Made, make};
use crate::saved::answer_accepted;
use clause_core::Decider;
use command_answers::{Status, put_last};
use inductive_search::InductiveSearch;
use outside::{Shelf, Sink};
use std::alloc::Global;
use verify_command::{Compared, Scans, StatedTexts, accept_texts, circuits_of, put_fault};

// Makes the circuits of what is compared, and goes on with them.
fn answer_compared<D: Decider, S: Shelf, K: Sink>(
    alloc: Global,
    decider: &mut D,
    count: u32,
    made: &Made,
    compared: &Compared,
    scans: Scans,
    shelf: &mut S,
    out: &mut K,
) -> Status
    requires made { IsMade count made.now }
    requires stated { AreStated (texts_of count) (comparison_in compared.now) }
    requires scans { AreScansOf (comparison_in compared.now) scans }
    requires unfailed { (K.state out.old).put_failed ≡ false }
    ensures others { KeepsOthers count (S.state shelf.old).file (S.state shelf.new).file }
    ensures left { LeavesFiles count (change (S.state shelf.old) (S.state shelf.new)) }
    ensures answer { Answers (GenReports count (change (S.state shelf.old) (S.state shelf.new))) ⊥ result (K.state out.old).taken (K.state out.new).taken }
    ensures usage { result ≢ Status.Usage }
    ensures read_fault { result ≢ Status.ReadFault }
    ensures write_fault { result ≡ Status.WriteFault → OneFailed count (change (S.state shelf.old) (S.state shelf.new)) ⊎ Rose (K.state out.old).faults (K.state out.new).faults }
    ensures reads { NoneFell (S.state shelf.old).read_faults (S.state shelf.new).read_faults }
    ensures writes { NoneFell (S.state shelf.old).write_faults (S.state shelf.new).write_faults }
    ensures faults { (K.state out.old).faults ≤ (K.state out.new).faults }
{
    match circuits_of(alloc, compared, scans) {
        Ok(circuits) => {
            let mut search = InductiveSearch::new(alloc, circuits.parts(), circuits.product());
            answer_accepted(
                alloc,
                decider,
                count,
                made,
                compared,
                &circuits,
                &mut search,
                shelf,
                out,
            )
        }
        Err(fault) => put_fault(alloc, fault, out),
    }
}

// Tests the texts as any other, and goes on with what they state.
fn answer_made<D: Decider, S: Shelf, K: Sink>(
    alloc: Global,
    decider: &mut D,
    count: u32,
    made: &Made,
    shelf: &mut S,
    out: &mut K,
) -> Status
    requires made { IsMade count made.now }
    requires unfailed { (K.state out.old).put_failed ≡ false }
    ensures others { KeepsOthers count (S.state shelf.old).file (S.state shelf.new).file }
    ensures left { LeavesFiles count (change (S.state shelf.old) (S.state shelf.new)) }
    ensures answer { Answers (GenReports count (change (S.state shelf.old) (S.state shelf.new))) ⊥ result (K.state out.old).taken (K.state out.new).taken }
    ensures usage { result ≢ Status.Usage }
    ensures read_fault { result ≢ Status.ReadFault }
    ensures write_fault { result ≡ Status.WriteFault → OneFailed count (change (S.state shelf.old) (S.state shelf.new)) ⊎ Rose (K.state out.old).faults (K.state out.new).faults }
    ensures reads { NoneFell (S.state shelf.old).read_faults (S.state shelf.new).read_faults }
    ensures writes { NoneFell (S.state shelf.old).write_faults (S.state shelf.new).write_faults }
    ensures faults { (K.state out.old).faults ≤ (K.state out.new).faults }
{
    match accept_texts(alloc, &made.kept) {
        Ok(stated) => {
            let StatedTexts { compared, scans } = stated;
            answer_compared(alloc, decider, count, made, &compared, scans, shelf, out)
        }
        Err(fault) => put_fault(alloc, fault, out),
    }
}

// Makes the texts, and goes on with them.
fn answer_count<D: Decider, S: Shelf, K: Sink>(
    alloc: Global,
    decider: &mut D,
    count: u32,
    shelf: &mut S,
    out: &mut K,
) -> Status
    requires unfailed { (K.state out.old).put_failed ≡ false }
    ensures others { KeepsOthers count (S.state shelf.old).file (S.state shelf.new).file }
    ensures left { LeavesFiles count (change (S.state shelf.old) (S.state shelf.new)) }
    ensures answer { Answers (GenReports count (change (S.state shelf.old) (S.state shelf.new))) ⊥ result (K.state out.old).taken (K.state out.new).taken }
    ensures usage { result ≢ Status.Usage }
    ensures read_fault { result ≢ Status.ReadFault }
    ensures write_fault { result ≡ Status.WriteFault → OneFailed count (change (S.state shelf.old) (S.state shelf.new)) ⊎ Rose (K.state out.old).faults (K.state out.new).faults }
    ensures reads { NoneFell (S.state shelf.old).read_faults (S.state shelf.new).read_faults }
    ensures writes { NoneFell (S.state shelf.old).write_faults (S.state shelf.new).write_faults }
    ensures faults { (K.state out.old).faults ≤ (K.state out.new).faults }
{
    match make(alloc, count) {
        Ok(made) => answer_made(alloc, decider, count, &made, shelf, out),
        Err(_) => put_last(out, "MEMORY\n", Status::Memory),
    }
}

/// Makes the texts with so many inputs, saves them in files that are named by the number, and verifies what was saved by this decider. The
/// texts are tested as any other, circuits included, before a file is made. No file is read.
pub fn answer_gen<D: Decider, S: Shelf, K: Sink>(
    alloc: Global,
    decider: &mut D,
    count: u32,
    shelf: &mut S,
    out: &mut K,
) -> Status
    // No put has failed before, and none follows one that failed.
    requires unfailed { (K.state out.old).put_failed ≡ false }

    // No file changes but the three of the texts and the finding. Whatever the answer, each text's file is as at entry or has a front of its text,
    // and the finding is as at entry or a part of a finding on what the texts state. The bytes on the sink and the status are those of a report on
    // the texts. A fault comes only where a count of one of the four files or of the sink rose, and no count falls.
    ensures ends { Ends (asking_to_generate count) result (change (S.state shelf.old) (S.state shelf.new)) (K.state out.old) (K.state out.new) }
    ensures usage { result ≢ Status.Usage }
    ensures read_fault { result ≢ Status.ReadFault }

    // Where the status is that of a verdict, the files have the texts, the finding was saved and is judged valid with it, and it is the
    // verdict of the model on what the texts state, or SPENT with its log; and where a line on reach is behind it, that is the reach of the model,
    // or the query for one row more is spent.
    ensures saved { IsOfVerdict result → ShowsMade count (change (S.state shelf.old) (S.state shelf.new)) result (K.state out.old).taken (K.state out.new).taken }

    // Where no count rose, the answer is a whole report, or memory was wanting.
    ensures complete { IsComplete (asking_to_generate count) result (change (S.state shelf.old) (S.state shelf.new)) (K.state out.old) (K.state out.new) }
{
    answer_count(alloc, decider, count, shelf, out)
}
