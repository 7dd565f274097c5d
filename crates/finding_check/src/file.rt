// A finding in a file.
ghost use Rattle.std.specs.Prelude.{false, ◌≡◌, ◌≤◌, ◌<◌, ◌^◌, IfSome, OnOk};
ghost use Rattle.outside.specs.Causes.{NoneFell};
ghost use Rattle.finding_file.specs.Causes.{IsCausedBy};
ghost use Rattle.queries.specs.Comparisons.{IsComparison};
ghost use Rattle.queries.specs.Settings.{setting_of};
ghost use Rattle.judgement.specs.Findings.{IsJudged};
ghost use Rattle.judgement.specs.Shown.{ShowsVerdict};
ghost use Rattle.finding_check.specs.Files.{comparison_between};

use crate::judging::judge;
use finding_file::FindingReader;
use judgement::{JudgeErr, Judged};
use outside::Shelf;
use pair_trial::Trial;
use program_tree::Program;
use queries::Queries;
use scan_model::Relation;
use std::alloc::Global;

/// A finding: the name of its file, how many bytes it may have, and how many are read in one call.
#[derive(Clone, Copy)]
pub struct FindingFile<'n> {
    pub name: &'n str,
    pub limit: u64,
    pub piece: usize,
}

/// Judges the finding in a file by two programs and the relation between them.
pub fn judge_file<Q: Queries, S: Shelf>(
    alloc: Global,
    old: &Program,
    new: &Program,
    relation: &Relation,
    queries: &Q,
    finding: &FindingFile<'_>,
    shelf: &mut S,
) -> Result<Judged, JudgeErr>
    requires compared { Q.compared queries.now ≡ comparison_between old.now new.now relation.now }
    requires comparison { IsComparison (comparison_between old.now new.now relation.now) }
    requires limit { finding.now.limit ≤ 2 ^ 30 }
    requires piece { 0 < finding.now.piece }
    requires unfailed { (S.state shelf.old).read_failed ≡ false }
    ensures exact { IfSome ((S.state shelf.old).file finding.now.name.now) (λ file. IsJudged (setting_of (comparison_between old.now new.now relation.now)) (Q.formula queries.now) finding.now.limit file result) }
    ensures sound { ShowsVerdict (comparison_between old.now new.now relation.now) (Q.formula queries.now) result }
    ensures kept { (S.state shelf.new).file ≡ (S.state shelf.old).file }
    ensures cause { IsCausedBy JudgeErr.Fault (S.state shelf.old).read_faults (S.state shelf.new).read_faults finding.now.name.now result }
    ensures writes { NoneFell (S.state shelf.old).write_faults (S.state shelf.new).write_faults }
    ensures unfailed { OnOk result ((S.state shelf.new).read_failed ≡ false) }
{
    let mut trial = Trial::new(alloc, old, new, relation)?;
    let mut reader = FindingReader::new(alloc, finding.name, finding.limit, finding.piece)?;
    judge(alloc, &mut trial, queries, &mut reader, shelf)
}
