// What may stand at each place.
ghost use Rattle.std.specs.Prelude.{◌≡◌, Bool, ◌&&◌, nat_lt, ◌+◌, ◌-◌, ◌^◌, ◌<◌, ◌≤◌, length, take, drop, IfOk};
ghost use Rattle.scan_model.specs.Pairs.{Pair};
ghost use Rattle.scan_replay.specs.Duos.{with_pair};
ghost use Rattle.derivation_check.specs.Checks.{Derivation, held_of};
ghost use Rattle.finding_lines.specs.declared.line.Line.TheVariants as lines;
ghost use Rattle.queries.specs.Sets.{members};
ghost use Rattle.queries.specs.Settings.{Setting, first_set};
ghost use Rattle.pair_trial.specs.Trials.{comparison_of, setting_in};
ghost use Rattle.judgement.specs.Steps.{pair_in, row_in};
ghost use Rattle.judgement.specs.Places.{at_end, in_walk, in_query};
ghost use Rattle.judgement.specs.declared.answers.Reach.TheVariants.{AtLeast};
ghost use Rattle.judgement.specs.Tests.{is_deep, is_walk, after_deep, drop_row, pair_row, at_top_next, at_header_next, at_walks_next, in_walk_next, at_drops_next, at_kept_next, at_deep_next, at_scans_next, at_end_next, in_log_next, in_query_next, when_spent, IsTold, Moves};
ghost use Rattle.finding_check.specs.Stages.{place_behind, place_of, moved_of};
ghost use Rattle.finding_check.specs.StepMoves.{MovesBy};
ghost use Rattle.finding_check.specs.Rooms.{IsSmall, HasRoom};

use crate::conclusions::{is_same, open_by, related_by};
use crate::logs::{close, log_deletions, log_step, open_checker, spent_deletions, spent_step};
use crate::rows::{drop_row, first_row, pair_row, scan_row, walk_row};
use crate::stage::{Behind, Moved, Spending, Stage};
use crate::versions::{begun, has_form, is_of_second};
use derivation_check::Checker;
use finding_lines::{Asked, Conclusion, Line};
use judgement::{Reach, Reason};
use pair_trial::{Trial, first_set};
use plc_types::Value;
use queries::{CandidateSet, Queries, Query};
use std::alloc::{AllocError, Global};

/// The first numbers, at most so many, and those behind them.
pub fn split_at_most(numbers: &[Value], count: usize) -> (&[Value], &[Value])
    ensures first { result.0.now ≡ take count numbers.now }
    ensures rest { result.1.now ≡ drop count numbers.now }
{
    if count <= numbers.len() {
        numbers.split_at(count)
    } else {
        numbers.split_at(numbers.len())
    }
}

fn at_top(line: &Line) -> Moved
    ensures { (pair : Pair) → moved_of result pair ≡ at_top_next line.now }
{
    match line {
        Line::Header(version) => Moved::Goes(Stage::Header(begun(*version))),
        _ => {
            if is_of_second(line) {
                Moved::Fails(Reason::B1)
            } else {
                Moved::Fails(Reason::B9)
            }
        }
    }
}

fn at_header<Q: Queries>(
    alloc: Global,
    trial: &mut Trial,
    queries: &Q,
    reach: Reach,
    line: &Line,
) -> Result<Moved, AllocError>
    ensures moved { IfOk result (λ step. moved_of step trial.new.pair ≡ at_header_next (setting_in trial.old) (Q.formula queries.now) reach line.now) }
    ensures kept { trial.new ≡ with_pair trial.new.pair trial.old }
{
    match line {
        Line::Seen(row) => first_row(alloc, trial, reach, row.as_slice()),
        Line::Log(Asked::First) => {
            let checker = open_checker(alloc, queries, &Query::First)?;
            let behind = Behind::End(reach, Conclusion::Vacuous);
            Ok(Moved::Goes(Stage::InLog(checker, behind)))
        }
        Line::Query(Asked::First) => {
            let checker = open_checker(alloc, queries, &Query::First)?;
            let left = trial.conflicts();
            Ok(Moved::Goes(Stage::InQuery(reach, Asked::First, checker, left)))
        }
        _ => Ok(Moved::Fails(Reason::B9)),
    }
}

fn is_walk(rows: u64, asked: Asked) -> bool
    ensures { result ≡ is_walk rows asked }
{
    match asked {
        Asked::Walk(other) => 0 <= other && other as u128 == u128::from(rows),
        _ => false,
    }
}

// Behind so many rows, some, a list of one row more is asked for.
fn asks_for_more(rows: u64, asked: Asked) -> bool
    requires { rows < 2 ^ 64 - 1 }
    ensures { result ≡ (nat_lt 0 rows && is_walk (rows + 1) asked) }
{
    if rows == 0 {
        return false;
    }
    is_walk(rows + 1, asked)
}

// Behind so many rows of the list, a line may ask for one more.
fn at_walks<Q: Queries>(
    alloc: Global,
    trial: &mut Trial,
    queries: &Q,
    rows: u64,
    line: &Line,
) -> Result<Moved, AllocError>
    requires small { IsSmall (setting_in trial.old) }
    requires compared { Q.compared queries.now ≡ comparison_of trial.old }
    requires deep { rows < (setting_in trial.old).depth }
    ensures moved { IfOk result (λ step. moved_of step trial.new.pair ≡ at_walks_next (setting_in trial.old) (Q.formula queries.now) rows trial.old.pair line.now) }
    ensures kept { trial.new ≡ with_pair trial.new.pair trial.old }
{
    match line {
        Line::Walk(row) => walk_row(alloc, trial, rows, row.as_slice()),
        Line::Log(asked) => {
            if !asks_for_more(rows, *asked) {
                return Ok(Moved::Fails(Reason::B9));
            }
            let set = first_set(alloc, trial)?;
            let checker = open_checker(alloc, queries, &Query::Walk(rows + 1))?;
            let behind = Behind::Drops(Reach::Greatest(rows), set);
            Ok(Moved::Goes(Stage::InLog(checker, behind)))
        }
        Line::Query(asked) => {
            if !asks_for_more(rows, *asked) {
                return Ok(Moved::Fails(Reason::B9));
            }
            let left = trial.conflicts();
            let checker = open_checker(alloc, queries, &Query::Walk(rows + 1))?;
            Ok(Moved::Goes(Stage::InWalk(rows, checker, left)))
        }
        _ => Ok(Moved::Fails(Reason::B9)),
    }
}

// The numbers of a row that drops candidates.
fn drop_numbers(trial: &mut Trial, reach: Reach, set: CandidateSet, numbers: &[Value]) -> Moved
    ensures moved { moved_of result trial.new.pair ≡ drop_row (setting_in trial.old) reach (members set) (pair_in (setting_in trial.old) numbers.now) (row_in (setting_in trial.old) numbers.now) }
    ensures kept { trial.new ≡ with_pair trial.new.pair trial.old }
{
    let (old, rest) = split_at_most(numbers, trial.old_cells());
    let (new, row) = split_at_most(rest, trial.new_cells());
    drop_row(trial, reach, set, old, new, row)
}

fn at_drops<Q: Queries>(
    alloc: Global,
    trial: &mut Trial,
    queries: &Q,
    reach: Reach,
    set: CandidateSet,
    line: &Line,
) -> Result<Moved, AllocError>
    ensures moved { IfOk result (λ step. moved_of step trial.new.pair ≡ at_drops_next (setting_in trial.old) (Q.formula queries.now) reach (members set) line.now) }
    ensures kept { trial.new ≡ with_pair trial.new.pair trial.old }
{
    match line {
        Line::Dropping(numbers) => Ok(drop_numbers(trial, reach, set, numbers.as_slice())),
        Line::Log(Asked::Step) => {
            let checker = open_checker(alloc, queries, &Query::Step(&set))?;
            let behind = Behind::Kept(reach, set);
            Ok(Moved::Goes(Stage::InLog(checker, behind)))
        }
        Line::Query(Asked::Step) => {
            let checker = open_checker(alloc, queries, &Query::Step(&set))?;
            let left = trial.conflicts();
            Ok(Moved::Goes(Stage::InQuery(reach, Asked::Step, checker, left)))
        }
        _ => Ok(Moved::Fails(Reason::B9)),
    }
}

// The numbers of a row that leads out of the relation.
fn pair_numbers(trial: &mut Trial, reach: Reach, set: CandidateSet, numbers: &[Value]) -> Moved
    ensures moved { moved_of result trial.new.pair ≡ pair_row (setting_in trial.old) reach (members set) (pair_in (setting_in trial.old) numbers.now) (row_in (setting_in trial.old) numbers.now) }
    ensures kept { trial.new ≡ with_pair trial.new.pair trial.old }
{
    let (old, rest) = split_at_most(numbers, trial.old_cells());
    let (new, row) = split_at_most(rest, trial.new_cells());
    pair_row(trial, reach, set, old, new, row)
}

fn at_kept<Q: Queries>(
    alloc: Global,
    trial: &mut Trial,
    queries: &Q,
    reach: Reach,
    set: CandidateSet,
    line: &Line,
) -> Result<Moved, AllocError>
    requires { IsSmall (setting_in trial.old) }
    ensures moved { IfOk result (λ step. moved_of step trial.new.pair ≡ at_kept_next (setting_in trial.old) (Q.formula queries.now) reach (members set) line.now) }
    ensures kept { trial.new ≡ with_pair trial.new.pair trial.old }
{
    match line {
        Line::Pair(numbers) => Ok(pair_numbers(trial, reach, set, numbers.as_slice())),
        Line::Log(Asked::Goal) => {
            let checker = open_checker(alloc, queries, &Query::Goal(&set))?;
            let behind = Behind::End(reach, related_by(trial, &set));
            Ok(Moved::Goes(Stage::InLog(checker, behind)))
        }
        Line::Query(Asked::Goal) => {
            let checker = open_checker(alloc, queries, &Query::Goal(&set))?;
            let left = trial.conflicts();
            Ok(Moved::Goes(Stage::InQuery(reach, Asked::Goal, checker, left)))
        }
        _ => Ok(Moved::Fails(Reason::B9)),
    }
}

fn is_deep(scans: u64, asked: Asked) -> bool
    ensures { result ≡ is_deep scans asked }
{
    match asked {
        Asked::Deep(other) => 0 <= other && other as u128 == u128::from(scans),
        _ => false,
    }
}

// Behind the log for a break of so many scans.
fn behind_deep(trial: &Trial, reach: Reach, set: CandidateSet, scans: u64) -> Behind
    requires { IsSmall (setting_in trial.now) }
    ensures { place_behind result ≡ after_deep (setting_in trial.now) reach (members set) scans }
{
    if scans < trial.depth() {
        Behind::Deep(reach, set, scans)
    } else {
        Behind::End(reach, open_by(trial, &set))
    }
}

fn at_deep<Q: Queries>(
    alloc: Global,
    trial: &mut Trial,
    queries: &Q,
    reach: Reach,
    set: CandidateSet,
    none: u64,
    line: &Line,
) -> Result<Moved, AllocError>
    requires small { IsSmall (setting_in trial.old) }
    requires compared { Q.compared queries.now ≡ comparison_of trial.old }
    requires deep { none < (setting_in trial.old).depth }
    ensures moved { IfOk result (λ step. moved_of step trial.new.pair ≡ at_deep_next (setting_in trial.old) (Q.formula queries.now) reach (members set) none line.now) }
    ensures kept { trial.new ≡ with_pair trial.new.pair trial.old }
{
    match line {
        Line::Scan(row) => {
            trial.reset();
            Ok(scan_row(trial, reach, none + 1, none, row.as_slice()))
        }
        Line::Log(asked) => {
            if !is_deep(none + 1, *asked) {
                return Ok(Moved::Fails(Reason::B9));
            }
            let checker = open_checker(alloc, queries, &Query::Deep(none + 1))?;
            let behind = behind_deep(trial, reach, set, none + 1);
            Ok(Moved::Goes(Stage::InLog(checker, behind)))
        }
        Line::Query(asked) => {
            if !is_deep(none + 1, *asked) {
                return Ok(Moved::Fails(Reason::B9));
            }
            let checker = open_checker(alloc, queries, &Query::Deep(none + 1))?;
            let left = trial.conflicts();
            Ok(Moved::Goes(Stage::InQuery(reach, *asked, checker, left)))
        }
        _ => Ok(Moved::Fails(Reason::B9)),
    }
}

fn at_scans(trial: &mut Trial, reach: Reach, scans: u64, more: u64, line: &Line) -> Moved
    requires small { IsSmall (setting_in trial.old) }
    requires deep { scans ≤ (setting_in trial.old).depth }
    ensures moved { moved_of result trial.new.pair ≡ at_scans_next (setting_in trial.old) reach scans more trial.old.pair line.now }
    ensures kept { trial.new ≡ with_pair trial.new.pair trial.old }
{
    match line {
        Line::Scan(row) => scan_row(trial, reach, scans, more, row.as_slice()),
        _ => Moved::Fails(Reason::B9),
    }
}

// The END line.
fn end_by(reach: Reach, verdict: Conclusion, conclusion: Conclusion) -> Moved
    ensures { (s : Setting) (pair : Pair) → (told : Bool) × IsTold s (at_end reach verdict) (lines.End conclusion) told
        × (moved_of result pair ≡ at_end_next reach verdict told (lines.End conclusion)) }
{
    if is_same(conclusion, verdict) {
        Moved::Goes(Stage::Finished(reach, verdict))
    } else {
        Moved::Fails(Reason::B11)
    }
}

fn at_end(reach: Reach, verdict: Conclusion, line: &Line) -> Moved
    ensures { (s : Setting) (pair : Pair) → (told : Bool) × IsTold s (at_end reach verdict) line.now told × (moved_of result pair ≡ at_end_next reach verdict told line.now) }
{
    match line {
        Line::End(conclusion) => end_by(reach, verdict, *conclusion),
        _ => Moved::Fails(Reason::B9),
    }
}

fn in_log(alloc: Global, checker: Checker, behind: Behind, line: &Line) -> Result<Moved, AllocError>
    requires { length (held_of checker) < 2 ^ 32 }
    ensures { IfOk result (λ step. (pair : Pair) → moved_of step pair ≡ in_log_next checker (place_behind behind) line.now) }
{
    match line {
        Line::Derived(literals, hints) => log_step(
            alloc,
            checker,
            behind,
            literals.as_slice(),
            hints.as_slice(),
        ),
        Line::Deleted(ids) => Ok(log_deletions(checker, behind, ids.as_slice())),
        _ => Ok(Moved::Fails(Reason::B7)),
    }
}

// The END line of a spent query.
fn end_query(trial: &Trial, reach: Reach, asked: Asked, left: u64, conclusion: Conclusion) -> Moved
    requires { IsSmall (setting_in trial.now) }
    ensures { (pair : Pair) (d : Derivation) → (told : Bool) × IsTold (setting_in trial.now) (in_query reach asked d left) (lines.End conclusion) told
        × (moved_of result pair ≡ in_query_next (setting_in trial.now) reach asked d left told (lines.End conclusion)) }
{
    let verdict = Conclusion::Spent(asked, Value::from(trial.conflicts()));
    let is_same = conclusion == verdict;
    if left != 0 {
        return Moved::Fails(Reason::B10);
    }
    if is_same {
        Moved::Goes(Stage::Finished(reach, verdict))
    } else {
        Moved::Fails(Reason::B11)
    }
}

fn in_query(
    alloc: Global,
    trial: &Trial,
    reach: Reach,
    asked: Asked,
    checker: Checker,
    left: u64,
    line: &Line,
) -> Result<Moved, AllocError>
    requires small { IsSmall (setting_in trial.now) }
    requires room { length (held_of checker) < 2 ^ 32 }
    ensures { IfOk result (λ step. (pair : Pair) → (told : Bool) × IsTold (setting_in trial.now) (in_query reach asked checker left) line.now told
        × (moved_of step pair ≡ in_query_next (setting_in trial.now) reach asked checker left told line.now)) }
{
    match line {
        Line::Derived(literals, hints) => spent_step(
            alloc,
            Spending::Query(reach, asked),
            checker,
            left,
            literals.as_slice(),
            hints.as_slice(),
        ),
        Line::Deleted(ids) => Ok(spent_deletions(
            Spending::Query(reach, asked),
            checker,
            left,
            ids.as_slice(),
        )),
        Line::End(conclusion) => Ok(end_query(trial, reach, asked, left, *conclusion)),
        _ => Ok(Moved::Fails(Reason::B9)),
    }
}

// Behind the log that is to spend the query for allowed rows, so many steps to come.
fn when_spent(left: u64, moved: Moved) -> Moved
    ensures { (pair : Pair) → moved_of result pair ≡ when_spent left (moved_of moved pair) }
{
    match moved {
        Moved::Goes(stage) => {
            if left == 0 {
                Moved::Goes(stage)
            } else {
                Moved::Fails(Reason::B10)
            }
        }
        Moved::Fails(reason) => Moved::Fails(reason),
    }
}

// A line that is no part of the log for a list of one row more than so many, so many steps to come.
fn behind_walk<Q: Queries>(
    alloc: Global,
    trial: &mut Trial,
    queries: &Q,
    rows: u64,
    left: u64,
    line: &Line,
) -> Result<Moved, AllocError>
    ensures moved { IfOk result (λ step. moved_of step trial.new.pair ≡ when_spent left (at_drops_next (setting_in trial.old) (Q.formula queries.now) (AtLeast rows) (first_set (setting_in trial.old)) line.now)) }
    ensures kept { trial.new ≡ with_pair trial.new.pair trial.old }
{
    let set = first_set(alloc, trial)?;
    let moved = at_drops(alloc, trial, queries, Reach::AtLeast(rows), set, line)?;
    Ok(when_spent(left, moved))
}

fn in_walk<Q: Queries>(
    alloc: Global,
    trial: &mut Trial,
    queries: &Q,
    rows: u64,
    checker: Checker,
    left: u64,
    line: &Line,
) -> Result<Moved, AllocError>
    requires { length (held_of checker) < 2 ^ 32 }
    ensures moved { IfOk result (λ step. (told : Bool) × IsTold (setting_in trial.old) (in_walk rows checker left) line.now told
        × (moved_of step trial.new.pair ≡ in_walk_next (setting_in trial.old) (Q.formula queries.now) rows checker left told line.now)) }
    ensures kept { trial.new ≡ with_pair trial.new.pair trial.old }
{
    match line {
        Line::Derived(literals, hints) => spent_step(
            alloc,
            Spending::Walk(rows),
            checker,
            left,
            literals.as_slice(),
            hints.as_slice(),
        ),
        Line::Deleted(ids) => Ok(spent_deletions(
            Spending::Walk(rows),
            checker,
            left,
            ids.as_slice(),
        )),
        _ => {
            close(checker);
            behind_walk(alloc, trial, queries, rows, left, line)
        }
    }
}

// Where a line leads to, in a version that has a form for it.
fn place_line<Q: Queries>(
    alloc: Global,
    trial: &mut Trial,
    queries: &Q,
    stage: Stage,
    line: &Line,
) -> Result<Moved, AllocError>
    requires small { IsSmall (setting_in trial.old) }
    requires compared { Q.compared queries.now ≡ comparison_of trial.old }
    requires room { HasRoom (setting_in trial.old) (2 ^ 30) (place_of stage trial.old.pair) }
    ensures moved { IfOk result (λ step. MovesBy (setting_in trial.old) (Q.formula queries.now) (place_of stage trial.old.pair) line.now (moved_of step trial.new.pair)) }
    ensures kept { trial.new ≡ with_pair trial.new.pair trial.old }
{
    match stage {
        Stage::Top => Ok(at_top(line)),
        Stage::Header(reach) => at_header(alloc, trial, queries, reach, line),
        Stage::Walks(rows) => at_walks(alloc, trial, queries, rows, line),
        Stage::InWalk(rows, checker, left) => {
            in_walk(alloc, trial, queries, rows, checker, left, line)
        }
        Stage::Drops(reach, set) => at_drops(alloc, trial, queries, reach, set, line),
        Stage::Kept(reach, set) => at_kept(alloc, trial, queries, reach, set, line),
        Stage::Deep(reach, set, none) => at_deep(alloc, trial, queries, reach, set, none, line),
        Stage::Scans(reach, scans, more) => Ok(at_scans(trial, reach, scans, more, line)),
        Stage::End(reach, verdict) => Ok(at_end(reach, verdict, line)),
        Stage::Finished(_, _) => Ok(Moved::Fails(Reason::B12)),
        Stage::InLog(checker, behind) => in_log(alloc, checker, behind, line),
        Stage::InQuery(reach, asked, checker, left) => {
            in_query(alloc, trial, reach, asked, checker, left, line)
        }
    }
}

/// Where a line leads to, or the first test that it fails.
pub fn judge_line<Q: Queries>(
    alloc: Global,
    trial: &mut Trial,
    queries: &Q,
    stage: Stage,
    line: &Line,
) -> Result<Moved, AllocError>
    requires small { IsSmall (setting_in trial.old) }
    requires compared { Q.compared queries.now ≡ comparison_of trial.old }
    requires room { HasRoom (setting_in trial.old) (2 ^ 30) (place_of stage trial.old.pair) }
    ensures moved { IfOk result (λ step. Moves (setting_in trial.old) (Q.formula queries.now) (place_of stage trial.old.pair) line.now (moved_of step trial.new.pair)) }
    ensures kept { trial.new ≡ with_pair trial.new.pair trial.old }
{
    if has_form(&stage, line) {
        place_line(alloc, trial, queries, stage, line)
    } else {
        Ok(Moved::Fails(Reason::B1))
    }
}
