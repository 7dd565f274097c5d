// A finding, judged and explained.
ghost use Rattle.std.specs.Prelude.{false, ◌≡◌, ◌≤◌, ◌<◌, ◌^◌, List, IfSome};
ghost use Rattle.outside.specs.Causes.{NoneFell};
ghost use Rattle.finding_lines.specs.declared.line.Line.{Line};
ghost use Rattle.finding_file.specs.Causes.{IsCausedBy};
ghost use Rattle.queries.specs.Comparisons.{IsComparison};
ghost use Rattle.queries.specs.Settings.{setting_of};
ghost use Rattle.finding_report.specs.Views.{comparison_in};
ghost use Rattle.finding_explain.specs.Notable.{IsFileOf, IsCollected};
ghost use Rattle.finding_explain.specs.Explaining.{IsExplained, IsReported, HasVerdict, ShowsReport, unread};

use crate::answers::Explained;
use crate::collect::collect;
use finding_check::{FindingFile, judge_file};
use finding_file::{FindingReader, ReadErr};
use finding_lines::Conclusion;
use finding_report::{Compared, Notes, report_text};
use judgement::{JudgeErr, Judged, Reason};
use outside::Shelf;
use pair_trial::Trial;
use queries::Queries;
use std::alloc::Global;

// Takes what a report needs from the finding.
fn collect_file<S: Shelf>(
    alloc: Global,
    compared: &Compared<'_>,
    finding: &FindingFile<'_>,
    shelf: &mut S,
) -> Result<Notes, ReadErr>
    requires comparison { IsComparison (comparison_in compared.now) }
    requires limit { finding.now.limit ≤ 2 ^ 30 }
    requires piece { 0 < finding.now.piece }
    requires unfailed { (S.state shelf.old).read_failed ≡ false }
    ensures noted { IfSome ((S.state shelf.old).file finding.now.name.now) (λ file. (ls : List Line) → IsFileOf (setting_of (comparison_in compared.now)) finding.now.limit file ls → IsCollected (setting_of (comparison_in compared.now)) ls result) }
    ensures kept { (S.state shelf.new).file ≡ (S.state shelf.old).file }
    ensures cause { IsCausedBy ReadErr.Fault (S.state shelf.old).read_faults (S.state shelf.new).read_faults finding.now.name.now result }
    ensures writes { NoneFell (S.state shelf.old).write_faults (S.state shelf.new).write_faults }
{
    let mut trial = Trial::new(alloc, compared.old, compared.new, compared.relation)?;
    let mut reader = FindingReader::new(alloc, finding.name, finding.limit, finding.piece)?;
    collect(alloc, &mut trial, &mut reader, shelf)
}

// What is said where the finding could not be read once more: a file that has changed since is judged by the line that is broken.
fn unread(error: ReadErr) -> Result<Explained, JudgeErr>
    ensures { result ≡ unread error }
{
    match error {
        ReadErr::Fault => Err(JudgeErr::Fault),
        ReadErr::Memory => Err(JudgeErr::Memory),
        ReadErr::M8 => Err(JudgeErr::M8),
        ReadErr::Spelling(line) => Ok(Explained::Bad {
            line,
            reason: Reason::B1,
        }),
        ReadErr::Unended(line) => Ok(Explained::Bad {
            line,
            reason: Reason::B13,
        }),
    }
}

// The report on a finding that was judged valid.
fn report_file<S: Shelf>(
    alloc: Global,
    compared: &Compared<'_>,
    finding: &FindingFile<'_>,
    shelf: &mut S,
    verdict: Conclusion,
) -> Result<Explained, JudgeErr>
    requires comparison { IsComparison (comparison_in compared.now) }
    requires limit { finding.now.limit ≤ 2 ^ 30 }
    requires piece { 0 < finding.now.piece }
    requires unfailed { (S.state shelf.old).read_failed ≡ false }
    ensures exact { IfSome ((S.state shelf.old).file finding.now.name.now) (λ file. (ls : List Line) → IsFileOf (setting_of (comparison_in compared.now)) finding.now.limit file ls → IsReported (comparison_in compared.now) ls verdict result) }
    ensures report { HasVerdict (comparison_in compared.now) verdict result }
    ensures kept { (S.state shelf.new).file ≡ (S.state shelf.old).file }
    ensures cause { IsCausedBy JudgeErr.Fault (S.state shelf.old).read_faults (S.state shelf.new).read_faults finding.now.name.now result }
    ensures writes { NoneFell (S.state shelf.old).write_faults (S.state shelf.new).write_faults }
{
    match collect_file(alloc, compared, finding, shelf) {
        Err(error) => unread(error),
        Ok(notes) => Ok(Explained::Valid(report_text(alloc, compared, &notes, verdict)?)),
    }
}

/// Judges a finding, and where it is valid gives the report on its lines and its verdict. The file is read twice, and nothing of it is
/// kept but the set of candidates, the PAIR line and the SCAN lines.
pub fn explain_finding<Q: Queries, S: Shelf>(
    alloc: Global,
    compared: &Compared<'_>,
    queries: &Q,
    finding: &FindingFile<'_>,
    shelf: &mut S,
) -> Result<Explained, JudgeErr>
    requires compared { Q.compared queries.now ≡ comparison_in compared.now }
    requires comparison { IsComparison (comparison_in compared.now) }
    requires limit { finding.now.limit ≤ 2 ^ 30 }
    requires piece { 0 < finding.now.piece }
    requires unfailed { (S.state shelf.old).read_failed ≡ false }
    ensures exact { IfSome ((S.state shelf.old).file finding.now.name.now) (λ file. IsExplained (comparison_in compared.now) (Q.formula queries.now) finding.now.limit file result) }
    ensures sound { ShowsReport (comparison_in compared.now) (Q.formula queries.now) result }
    ensures kept { (S.state shelf.new).file ≡ (S.state shelf.old).file }
    ensures cause { IsCausedBy JudgeErr.Fault (S.state shelf.old).read_faults (S.state shelf.new).read_faults finding.now.name.now result }
    ensures writes { NoneFell (S.state shelf.old).write_faults (S.state shelf.new).write_faults }
{
    match judge_file(
        alloc,
        compared.old,
        compared.new,
        compared.relation,
        queries,
        finding,
        shelf,
    )? {
        Judged::Bad { line, reason } => Ok(Explained::Bad { line, reason }),
        Judged::Valid(verdict, _) => report_file(alloc, compared, finding, shelf, verdict),
    }
}
