// A finding saved, and what is answered.
ghost use Rattle.std.specs.Prelude.{false, ◌≡◌, ◌≢◌, ◌≤◌, ◌⊎◌, IfOk, OnErr};
ghost use Rattle.outside.specs.Causes.{Rose, NoneFell};
ghost use Rattle.outside.specs.Contents.{OthersStay};
ghost use Rattle.outside.specs.States.{change};
ghost use Rattle.finding_file.specs.Causes.{IsCausedBy};
ghost use Rattle.queries.specs.Settings.{setting_of};
ghost use Rattle.finding_search.specs.Passing.{IsFull};
ghost use Rattle.comparison_files.specs.Held.{comparison_in};
ghost use Rattle.command_answers.specs.Answers.{Answers};
ghost use Rattle.finding_answers.specs.Lines.{most_bytes};
ghost use Rattle.verify_command.specs.Reports.{HasFailed, IsSaved, AreShown, LeavesPart, ReportsVerdict, ReportsSaved};

use clause_core::Decider;
use command_answers::{Source, Status, put_last, put_limit};
use comparison_files::Compared;
use finding_answers::{MOST_BYTES, put_verdict};
use finding_file::{FindingWriter, WriteErr};
use finding_search::save_finding;
use invariant_prune::Guesses;
use judgement::Concluded;
use outside::{OutErr, Shelf, Sink};
use queries::Queries;
use rules::Rule;
use std::alloc::Global;

// Makes the file of the finding, and saves the finding in it.
fn save<D: Decider, Q: Queries, G: Guesses, S: Shelf>(
    alloc: Global,
    decider: &mut D,
    compared: &Compared,
    queries: &Q,
    guesses: &mut G,
    finding: &str,
    shelf: &mut S,
) -> Result<Concluded, WriteErr>
    requires { Q.compared queries.now ≡ comparison_in compared.now }
    ensures saved { IfOk result (IsSaved (comparison_in compared.now) (Q.formula queries.now) (change (S.state shelf.old) (S.state shelf.new)) finding.now) }
    ensures shown { IfOk result (AreShown (comparison_in compared.now) (Q.formula queries.now)) }
    ensures left { OnErr result (LeavesPart (comparison_in compared.now) (Q.formula queries.now) (change (S.state shelf.old) (S.state shelf.new)) finding.now) }
    ensures past { result ≡ Err WriteErr.M8 → IsFull (setting_of (comparison_in compared.now)) (Q.formula queries.now) ((S.state shelf.new).file finding.now) most_bytes }
    ensures others { OthersStay (S.state shelf.old).file (S.state shelf.new).file finding.now }
    ensures cause { IsCausedBy WriteErr.Fault (S.state shelf.old).write_faults (S.state shelf.new).write_faults finding.now result }
    ensures reads { NoneFell (S.state shelf.old).read_faults (S.state shelf.new).read_faults }
{
    let Ok(mut trial) = compared.trial(alloc) else {
        return Err(WriteErr::Memory);
    };
    let Ok(mut writer) = FindingWriter::new(alloc, finding, MOST_BYTES) else {
        return Err(WriteErr::Memory);
    };
    match shelf.create(finding) {
        Ok(()) => save_finding(
            alloc,
            decider,
            &mut trial,
            queries,
            guesses,
            &mut writer,
            shelf,
        ),
        Err(OutErr::Fault) => Err(WriteErr::Fault),
        Err(OutErr::Memory) => Err(WriteErr::Memory),
    }
}

// Puts how the saving of a finding on a relation of such a DEPTH ended.
fn put_saved<K: Sink>(
    alloc: Global,
    depth: u64,
    saved: Result<Concluded, WriteErr>,
    out: &mut K,
) -> Status
    requires unfailed { (K.state out.old).put_failed ≡ false }
    ensures answer { Answers (ReportsSaved depth saved) ⊥ result (K.state out.old).taken (K.state out.new).taken }
    ensures usage { result ≢ Status.Usage }
    ensures read_fault { result ≢ Status.ReadFault }
    ensures write_fault { result ≡ Status.WriteFault → (saved ≡ Err WriteErr.Fault) ⊎ Rose (K.state out.old).faults (K.state out.new).faults }
    ensures faults { (K.state out.old).faults ≤ (K.state out.new).faults }
{
    match saved {
        Ok(concluded) => put_verdict(alloc, depth, concluded, out),
        Err(WriteErr::M8) => put_limit(alloc, Source::Finding, Rule::FindingTooLong, out),
        Err(WriteErr::Fault) => put_last(out, "WRITE FAULT\n", Status::WriteFault),
        Err(WriteErr::Memory) => put_last(out, "MEMORY\n", Status::Memory),
    }
}

/// Saves the finding on what is compared, and puts how that ended. Rows that are proposed are tried before a query is asked.
pub fn answer_finding<D: Decider, Q: Queries, G: Guesses, S: Shelf, K: Sink>(
    alloc: Global,
    decider: &mut D,
    compared: &Compared,
    queries: &Q,
    guesses: &mut G,
    finding: &str,
    shelf: &mut S,
    out: &mut K,
) -> Status
    requires compared { Q.compared queries.now ≡ comparison_in compared.now }
    requires unfailed { (K.state out.old).put_failed ≡ false }
    ensures others { OthersStay (S.state shelf.old).file (S.state shelf.new).file finding.now }
    ensures left { LeavesPart (comparison_in compared.now) (Q.formula queries.now) (change (S.state shelf.old) (S.state shelf.new)) finding.now }
    ensures answer { Answers (ReportsVerdict (comparison_in compared.now) (Q.formula queries.now) (change (S.state shelf.old) (S.state shelf.new)) finding.now) ⊥ result (K.state out.old).taken (K.state out.new).taken }
    ensures usage { result ≢ Status.Usage }
    ensures read_fault { result ≢ Status.ReadFault }
    ensures write_fault { result ≡ Status.WriteFault → HasFailed (change (S.state shelf.old) (S.state shelf.new)) finding.now ⊎ Rose (K.state out.old).faults (K.state out.new).faults }
    ensures reads { NoneFell (S.state shelf.old).read_faults (S.state shelf.new).read_faults }
    ensures writes { NoneFell (S.state shelf.old).write_faults (S.state shelf.new).write_faults }
    ensures faults { (K.state out.old).faults ≤ (K.state out.new).faults }
{
    let saved = save(alloc, decider, compared, queries, guesses, finding, shelf);
    put_saved(alloc, compared.relation().depth, saved, out)
}
