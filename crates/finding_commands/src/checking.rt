// A finding judged, and what is said of it on the sink.
ghost use Rattle.std.specs.Prelude.{false, ◌≡◌, IfSome};
ghost use Rattle.outside.specs.Causes.{NoneFell};
ghost use Rattle.finding_file.specs.Causes.{IsCausedBy};
ghost use Rattle.queries.specs.Settings.{setting_of};
ghost use Rattle.judgement.specs.Findings.{IsJudged};
ghost use Rattle.judgement.specs.Shown.{ShowsVerdict};
ghost use Rattle.comparison_files.specs.Held.{comparison_in};
ghost use Rattle.finding_answers.specs.Lines.{most_bytes};

use crate::finding_command::FindingCommand;
use command_answers::Status;
use comparison_files::Compared;
use finding_answers::{MOST_BYTES, PIECE, put_judged, put_unjudged};
use finding_check::{FindingFile, JudgeErr, Judged, judge_file};
use outside::{Shelf, Sink};
use queries::Queries;
use std::alloc::Global;

// Judges the finding in a file by what is compared.
fn judge_finding<Q: Queries, S: Shelf>(
    alloc: Global,
    compared: &Compared,
    queries: &Q,
    finding: &str,
    shelf: &mut S,
) -> Result<Judged, JudgeErr>
    requires compared { Q.compared queries.now ≡ comparison_in compared.now }
    requires unfailed { (S.state shelf.old).read_failed ≡ false }
    ensures exact { IfSome ((S.state shelf.old).file finding.now) (λ file. IsJudged (setting_of (comparison_in compared.now)) (Q.formula queries.now) most_bytes file result) }
    ensures sound { ShowsVerdict (comparison_in compared.now) (Q.formula queries.now) result }
    ensures kept { (S.state shelf.new).file ≡ (S.state shelf.old).file }
    ensures cause { IsCausedBy JudgeErr.Fault (S.state shelf.old).read_faults (S.state shelf.new).read_faults finding.now result }
    ensures writes { NoneFell (S.state shelf.old).write_faults (S.state shelf.new).write_faults }
{
    compared.laws();
    let file = FindingFile {
        name: finding,
        limit: MOST_BYTES,
        piece: PIECE,
    };
    judge_file(
        alloc,
        compared.old_program(),
        compared.new_program(),
        compared.relation(),
        queries,
        &file,
        shelf,
    )
}

/// The command `check`.
pub(crate) struct Checking;

impl FindingCommand for Checking {
    ghost use Rattle.finding_commands.specs.Checks.{ReportsFinding};

    ghost reports = { ReportsFinding };

    fn answer<Q: Queries, S: Shelf, K: Sink>(
        &self,
        alloc: Global,
        compared: &Compared,
        queries: &Q,
        finding: &str,
        shelf: &mut S,
        out: &mut K,
    ) -> Status {
        match judge_finding(alloc, compared, queries, finding, shelf) {
            Ok(judged) => put_judged(alloc, compared.relation().depth, judged, out),
            Err(error) => put_unjudged(alloc, error, out),
        }
    }
}
