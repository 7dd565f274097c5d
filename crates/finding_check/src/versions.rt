// Which lines the version of a finding has a form for.
ghost use Rattle.std.specs.Prelude.{◌≡◌, not, ◌&&◌, ◌||◌};
ghost use Rattle.clause_core.specs.Formula.{Formula};
ghost use Rattle.scan_model.specs.Pairs.{Pair};
ghost use Rattle.queries.specs.Questions.{QueryData};
ghost use Rattle.queries.specs.Settings.{Setting};
ghost use Rattle.judgement.specs.Places.{reach_at};
ghost use Rattle.judgement.specs.Tests.{begun, is_of_second, is_first_version, is_outside, has_form_at};
ghost use Rattle.finding_check.specs.Stages.{place_behind, place_of};

use crate::stage::{Behind, Stage};
use finding_lines::{Asked, Line, Version};
use judgement::Reach;

/// What is said of reach behind the header.
pub fn begun(version: Version) -> Reach
    ensures { result ≡ begun version }
{
    match version {
        Version::One => Reach::Untold,
        Version::Two => Reach::Unwalked,
    }
}

/// Whether version 1 has no form for a line.
pub fn is_of_second(line: &Line) -> bool
    ensures { result ≡ is_of_second line.now }
{
    match line {
        Line::Header(Version::Two) => true,
        Line::Walk(_) => true,
        Line::Log(Asked::Walk(_)) => true,
        Line::Query(Asked::Walk(_)) => true,
        Line::Deleted(_) => true,
        _ => false,
    }
}

fn is_first_version(reach: Reach) -> bool
    ensures { result ≡ is_first_version reach }
{
    match reach {
        Reach::Untold => true,
        _ => false,
    }
}

fn reach_behind(behind: &Behind) -> Reach
    ensures { result ≡ reach_at (place_behind behind.now) }
{
    match behind {
        Behind::Drops(reach, _) => *reach,
        Behind::Kept(reach, _) => *reach,
        Behind::Deep(reach, _, _) => *reach,
        Behind::End(reach, _) => *reach,
    }
}

// What has been said of reach.
fn reach_at(stage: &Stage) -> Reach
    ensures { (pair : Pair) → result ≡ reach_at (place_of stage.now pair) }
{
    match stage {
        Stage::Top => Reach::Untold,
        Stage::Header(reach) => *reach,
        Stage::Walks(_) => Reach::Unwalked,
        Stage::InWalk(_, _, _) => Reach::Unwalked,
        Stage::Drops(reach, _) => *reach,
        Stage::Kept(reach, _) => *reach,
        Stage::Deep(reach, _, _) => *reach,
        Stage::Scans(reach, _, _) => *reach,
        Stage::End(reach, _) => *reach,
        Stage::Finished(reach, _) => *reach,
        Stage::InLog(_, behind) => reach_behind(behind),
        Stage::InQuery(reach, _, _, _) => *reach,
    }
}

fn is_outside(stage: &Stage) -> bool
    ensures { (s : Setting) (formula : QueryData → Formula) (pair : Pair) → result ≡ is_outside s formula (place_of stage.now pair) }
{
    match stage {
        Stage::Top => true,
        Stage::Finished(_, _) => true,
        _ => false,
    }
}

fn is_form(is_outside: bool, is_first: bool, is_second: bool) -> bool
    ensures { result ≡ (is_outside || not (is_first && is_second)) }
{
    is_outside || !(is_first && is_second)
}

/// Whether the version of a finding has a form for a line; before the header and behind the END line it decides nothing.
pub fn has_form(stage: &Stage, line: &Line) -> bool
    ensures { (s : Setting) (formula : QueryData → Formula) (pair : Pair) → result ≡ has_form_at s formula (place_of stage.now pair) line.now }
{
    is_form(
        is_outside(stage),
        is_first_version(reach_at(stage)),
        is_of_second(line),
    )
}
