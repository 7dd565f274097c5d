// Texts that are accepted: saved, told of, and verified.
ghost use Rattle.std.specs.Prelude.{false, ◌≡◌, ◌≢◌, ◌≤◌, ◌⊎◌};
ghost use Rattle.outside.specs.Causes.{Rose, NoneFell};
ghost use Rattle.outside.specs.States.{change};
ghost use Rattle.outside.specs.Contents.{OthersStay};
ghost use Rattle.verify_command.specs.comparison_files.Held.{comparison_in};
ghost use Rattle.command_answers.specs.Answers.{Answers};
ghost use Rattle.generated_texts.specs.Names.{finding_name};
ghost use Rattle.generated_texts.specs.Files.{LeaveTexts};
ghost use Rattle.verify_command.specs.Reports.{HasFailed, LeavesPart};
ghost use Rattle.gen_command.specs.Lines.{made_line};
ghost use Rattle.gen_command.specs.Made.{IsMade};
ghost use Rattle.gen_command.specs.Reports.{ReportsBehind, ReportsAccepted, OneFailed, KeepsOthers};

use crate::line::made_line;
use crate::made::Made;
use clause_core::Decider;
use command_answers::{Status, put_last, put_text};
use generated_texts::save_texts;
use invariant_prune::Guesses;
use outside::{OutErr, Shelf, Sink};
use queries::Queries;
use std::alloc::Global;
use verify_command::{Compared, answer_finding};

// Puts GEN's line, and saves the finding.
fn answer_behind<D: Decider, Q: Queries, G: Guesses, S: Shelf, K: Sink>(
    alloc: Global,
    decider: &mut D,
    count: u32,
    line: &str,
    compared: &Compared,
    queries: &Q,
    guesses: &mut G,
    finding: &str,
    shelf: &mut S,
    out: &mut K,
) -> Status
    requires compared { Q.compared queries.now ≡ comparison_in compared.now }
    requires line { line.now ≡ made_line count (comparison_in compared.now) }
    requires unfailed { (K.state out.old).put_failed ≡ false }
    ensures others { OthersStay (S.state shelf.old).file (S.state shelf.new).file finding.now }
    ensures left { LeavesPart (comparison_in compared.now) (Q.formula queries.now) (change (S.state shelf.old) (S.state shelf.new)) finding.now }
    ensures answer { Answers (ReportsBehind count (comparison_in compared.now) (Q.formula queries.now) (change (S.state shelf.old) (S.state shelf.new)) finding.now) ⊥ result (K.state out.old).taken (K.state out.new).taken }
    ensures usage { result ≢ Status.Usage }
    ensures read_fault { result ≢ Status.ReadFault }
    ensures write_fault { result ≡ Status.WriteFault → HasFailed (change (S.state shelf.old) (S.state shelf.new)) finding.now ⊎ Rose (K.state out.old).faults (K.state out.new).faults }
    ensures reads { NoneFell (S.state shelf.old).read_faults (S.state shelf.new).read_faults }
    ensures writes { NoneFell (S.state shelf.old).write_faults (S.state shelf.new).write_faults }
    ensures faults { (K.state out.old).faults ≤ (K.state out.new).faults }
{
    match put_text(out, line) {
        Ok(()) => answer_finding(
            alloc, decider, compared, queries, guesses, finding, shelf, out,
        ),
        Err(OutErr::Fault) => Status::WriteFault,
        Err(OutErr::Memory) => Status::Memory,
    }
}

// The same, with the line that is made of what is compared.
fn answer_saved<D: Decider, Q: Queries, G: Guesses, S: Shelf, K: Sink>(
    alloc: Global,
    decider: &mut D,
    count: u32,
    compared: &Compared,
    queries: &Q,
    guesses: &mut G,
    finding: &str,
    shelf: &mut S,
    out: &mut K,
) -> Status
    requires compared { Q.compared queries.now ≡ comparison_in compared.now }
    requires unfailed { (K.state out.old).put_failed ≡ false }
    ensures others { OthersStay (S.state shelf.old).file (S.state shelf.new).file finding.now }
    ensures left { LeavesPart (comparison_in compared.now) (Q.formula queries.now) (change (S.state shelf.old) (S.state shelf.new)) finding.now }
    ensures answer { Answers (ReportsBehind count (comparison_in compared.now) (Q.formula queries.now) (change (S.state shelf.old) (S.state shelf.new)) finding.now) ⊥ result (K.state out.old).taken (K.state out.new).taken }
    ensures usage { result ≢ Status.Usage }
    ensures read_fault { result ≢ Status.ReadFault }
    ensures write_fault { result ≡ Status.WriteFault → HasFailed (change (S.state shelf.old) (S.state shelf.new)) finding.now ⊎ Rose (K.state out.old).faults (K.state out.new).faults }
    ensures reads { NoneFell (S.state shelf.old).read_faults (S.state shelf.new).read_faults }
    ensures writes { NoneFell (S.state shelf.old).write_faults (S.state shelf.new).write_faults }
    ensures faults { (K.state out.old).faults ≤ (K.state out.new).faults }
{
    match made_line(alloc, count, compared) {
        Ok(line) => answer_behind(
            alloc,
            decider,
            count,
            line.as_str(),
            compared,
            queries,
            guesses,
            finding,
            shelf,
            out,
        ),
        Err(_) => put_last(out, "MEMORY\n", Status::Memory),
    }
}

/// Saves the texts, puts GEN's line, and saves the finding.
pub(crate) fn answer_accepted<D: Decider, Q: Queries, G: Guesses, S: Shelf, K: Sink>(
    alloc: Global,
    decider: &mut D,
    count: u32,
    made: &Made,
    compared: &Compared,
    queries: &Q,
    guesses: &mut G,
    shelf: &mut S,
    out: &mut K,
) -> Status
    requires made { IsMade count made.now }
    requires compared { Q.compared queries.now ≡ comparison_in compared.now }
    requires unfailed { (K.state out.old).put_failed ≡ false }
    ensures others { KeepsOthers count (S.state shelf.old).file (S.state shelf.new).file }
    ensures texts { LeaveTexts count (S.state shelf.old).file (S.state shelf.new).file }
    ensures left { LeavesPart (comparison_in compared.now) (Q.formula queries.now) (change (S.state shelf.old) (S.state shelf.new)) (finding_name count) }
    ensures answer { Answers (ReportsAccepted count (comparison_in compared.now) (Q.formula queries.now) (change (S.state shelf.old) (S.state shelf.new))) ⊥ result (K.state out.old).taken (K.state out.new).taken }
    ensures usage { result ≢ Status.Usage }
    ensures read_fault { result ≢ Status.ReadFault }
    ensures write_fault { result ≡ Status.WriteFault → OneFailed count (change (S.state shelf.old) (S.state shelf.new)) ⊎ Rose (K.state out.old).faults (K.state out.new).faults }
    ensures reads { NoneFell (S.state shelf.old).read_faults (S.state shelf.new).read_faults }
    ensures writes { NoneFell (S.state shelf.old).write_faults (S.state shelf.new).write_faults }
    ensures faults { (K.state out.old).faults ≤ (K.state out.new).faults }
{
    let finding = made.names.finding.as_str();
    match save_texts(count, &made.names, &made.texts, shelf) {
        Ok(()) => answer_saved(
            alloc, decider, count, compared, queries, guesses, finding, shelf, out,
        ),
        Err(OutErr::Fault) => put_last(out, "WRITE FAULT\n", Status::WriteFault),
        Err(OutErr::Memory) => put_last(out, "MEMORY\n", Status::Memory),
    }
}
