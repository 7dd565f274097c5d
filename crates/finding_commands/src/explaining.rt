// A finding judged and explained, and what is said of it on the sink.
ghost use Rattle.std.specs.Prelude.{false, ◌≡◌, IfSome};
ghost use Rattle.outside.specs.Causes.{NoneFell};
ghost use Rattle.finding_file.specs.Causes.{IsCausedBy};
ghost use Rattle.comparison_files.specs.Held.{comparison_in};
ghost use Rattle.finding_explain.specs.Explaining.{IsExplained};
ghost use Rattle.finding_answers.specs.Lines.{most_bytes};

use crate::finding_command::FindingCommand;
use crate::show::put_explained;
use command_answers::Status;
use comparison_files::Compared;
use finding_answers::{MOST_BYTES, PIECE, put_unjudged};
use finding_explain::{Explained, FindingFile, explain_finding};
use judgement::JudgeErr;
use outside::{Shelf, Sink};
use queries::Queries;
use std::alloc::Global;

// Judges the finding in a file, and explains it.
fn explain_file<Q: Queries, S: Shelf>(
    alloc: Global,
    compared: &Compared,
    queries: &Q,
    finding: &str,
    shelf: &mut S,
) -> Result<Explained, JudgeErr>
    requires compared { Q.compared queries.now ≡ comparison_in compared.now }
    requires unfailed { (S.state shelf.old).read_failed ≡ false }
    ensures exact { IfSome ((S.state shelf.old).file finding.now) (λ file. IsExplained (comparison_in compared.now) (Q.formula queries.now) most_bytes file result) }
    ensures kept { (S.state shelf.new).file ≡ (S.state shelf.old).file }
    ensures cause { IsCausedBy JudgeErr.Fault (S.state shelf.old).read_faults (S.state shelf.new).read_faults finding.now result }
    ensures writes { NoneFell (S.state shelf.old).write_faults (S.state shelf.new).write_faults }
{
    compared.laws();
    let programs = finding_report::Compared {
        old: compared.old_program(),
        new: compared.new_program(),
        relation: compared.relation(),
    };
    let file = FindingFile {
        name: finding,
        limit: MOST_BYTES,
        piece: PIECE,
    };
    explain_finding(alloc, &programs, queries, &file, shelf)
}

/// The command `explain`.
pub(crate) struct Explaining;

impl FindingCommand for Explaining {
    ghost use Rattle.finding_commands.specs.Explanations.{ReportsExplained};

    ghost reports = { ReportsExplained };

    fn answer<Q: Queries, S: Shelf, K: Sink>(
        &self,
        alloc: Global,
        compared: &Compared,
        queries: &Q,
        finding: &str,
        shelf: &mut S,
        out: &mut K,
    ) -> Status {
        match explain_file(alloc, compared, queries, finding, shelf) {
            Ok(explained) => put_explained(alloc, explained, out),
            Err(error) => put_unjudged(alloc, error, out),
        }
    }
}
