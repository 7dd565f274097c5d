// A whole finding.
ghost use Rattle.std.specs.Prelude.{◌≡◌, ◌≢◌, ◌∷◌, [], length, Result, IfOk, IfSome, OnErr};
ghost use Rattle.outside.specs.Causes.{NoneFell};
ghost use Rattle.outside.specs.Contents.{OthersStay};
ghost use Rattle.clause_core.specs.Formula.{Formula};
ghost use Rattle.finding_lines.specs.declared.line.Line.TheVariants as lines;
ghost use Rattle.finding_file.specs.Causes.{IsCausedBy};
ghost use Rattle.scan_model.specs.InRange.{Row};
ghost use Rattle.queries.specs.Comparisons.{IsComparison};
ghost use Rattle.queries.specs.Settings.{Setting, first_set};
ghost use Rattle.queries.specs.Questions.{QueryData};
ghost use Rattle.queries.specs.Questions as questions;
ghost use Rattle.queries.specs.Meaning.{Answers};
ghost use Rattle.queries.specs.Sets.{members};
ghost use Rattle.pair_trial.specs.Trials.{comparison_of, setting_in};
ghost use Rattle.invariant_prune.specs.Answers.{pair_of};
ghost use Rattle.invariant_prune.specs.Kept.{IsKept};
ghost use Rattle.judgement.specs.Places.{Place, at_top, at_header, at_walks, at_drops, at_kept, finished, finished_by};
ghost use Rattle.judgement.specs.Findings.{IsJudged};
ghost use Rattle.judgement.specs.Shown.{IsShown, IsReachShown};
ghost use Rattle.judgement.specs.declared.answers.Judged.TheVariants.{Valid};
ghost use Rattle.judgement.specs.declared.answers.Reach.{Reach};
ghost use Rattle.judgement.specs.declared.answers.Reach.TheVariants.{Untold, Unwalked};
ghost use Rattle.finding_search.specs.Desks.{Desk, desk};
ghost use Rattle.finding_search.specs.Numbered.{AreNumberRows, HasNumbers};
ghost use Rattle.finding_search.specs.Passing.{Passes, IsPartOfFinding, IsFull};
ghost use Rattle.finding_search.specs.Shown.{numbers_of};
ghost use Rattle.finding_search.specs.Writes.{Writes};

use crate::conclusions::{limit_of, related_by};
use crate::deepening::search;
use crate::dropping::{Pruned, prune};
use crate::logs::{write_refutation, write_spent};
use crate::numbers::{pair_numbers, row_numbers};
use crate::walks::write_walk;
use crate::writing::{write_end, write_line};
use clause_core::{Cnf, Decider};
use finding_file::{FindingWriter, WriteErr};
use finding_lines::{Asked, Conclusion, Line, Version};
use invariant_prune::{Answer, Guesses, first, goal};
use judgement::{Concluded, Reach};
use outside::Shelf;
use pair_trial::{Trial, first_set};
use queries::{CandidateSet, Decoded, Queries};
use reach_search::reach;
use std::alloc::Global;

// The row that leads out of the relation.
fn write_pair<S: Shelf>(
    alloc: Global,
    writer: &mut FindingWriter,
    shelf: &mut S,
    found: &Decoded,
) -> Result<(), WriteErr>
    requires one { length found.now.rows.items ≡ 1 }
    requires numbers { HasNumbers found.now }
    ensures { (s : Setting) (formula : QueryData → Formula) (from to : Place)
        → ((row : Row) → found.now.rows.items ≡ row ∷ [] → Passes s formula from (lines.Pair (numbers_of (pair_of found.now) row)) to)
        → Writes s formula (desk (S.state shelf.old) writer.old) from
        (desk (S.state shelf.new) writer.new) (λ _. to) result }
{
    let numbers = pair_numbers(alloc, found, &found.rows[0])?;
    write_line(writer, shelf, &Line::Pair(numbers))
}

// From the set that is kept on.
fn save_from_kept<D: Decider, Q: Queries, G: Guesses, S: Shelf>(
    alloc: Global,
    decider: &mut D,
    trial: &Trial,
    queries: &Q,
    kept: &mut Option<Cnf>,
    guesses: &mut G,
    writer: &mut FindingWriter,
    shelf: &mut S,
    set: &CandidateSet,
) -> Result<Conclusion, WriteErr>
    requires compared { Q.compared queries.now ≡ comparison_of trial.now }
    requires comparison { IsComparison (comparison_of trial.now) }
    requires kept { IsKept (Q.front queries.now) kept.old }
    ensures { (reach : Reach) → reach ≢ Untold → Writes (setting_in trial.now) (Q.formula queries.now) (desk (S.state shelf.old) writer.old) (at_kept reach (members set.now))
        (desk (S.state shelf.new) writer.new) (finished reach) result }
{
    let limit = limit_of(trial);
    match goal(alloc, decider, queries, kept, guesses, set, limit)? {
        Answer::Found(found) => {
            // What the formulas of the queries to come begin with is another.
            *kept = None;
            write_pair(alloc, writer, shelf, &found)?;
            search(alloc, decider, trial, queries, writer, shelf, set)
        }
        Answer::Refuted(log) => {
            write_refutation(alloc, writer, shelf, Asked::Goal, &log)?;
            write_end(writer, shelf, related_by(trial, set))
        }
        Answer::Spent(log) => write_spent(alloc, writer, shelf, Asked::Goal, &log, limit),
    }
}

// From the set of what holds at the start on.
fn save_from_start<D: Decider, Q: Queries, G: Guesses, S: Shelf>(
    alloc: Global,
    decider: &mut D,
    trial: &mut Trial,
    queries: &Q,
    guesses: &mut G,
    writer: &mut FindingWriter,
    shelf: &mut S,
) -> Result<Conclusion, WriteErr>
    requires compared { Q.compared queries.now ≡ comparison_of trial.old }
    requires comparison { IsComparison (comparison_of trial.old) }
    ensures { (reach : Reach) → reach ≢ Untold → Writes (setting_in trial.old) (Q.formula queries.now) (desk (S.state shelf.old) writer.old) (at_drops reach (first_set (setting_in trial.old)))
        (desk (S.state shelf.new) writer.new) (finished reach) result }
{
    let set = first_set(alloc, trial)?;
    let mut kept = None;
    match prune(
        alloc, decider, trial, queries, &mut kept, guesses, writer, shelf, set,
    )? {
        Pruned::Kept(set) => save_from_kept(
            alloc, decider, trial, queries, &mut kept, guesses, writer, shelf, &set,
        ),
        Pruned::Spent(verdict) => Ok(verdict),
    }
}

// A verdict, and what its finding says of reach.
fn concluded(verdict: Result<Conclusion, WriteErr>, reach: Reach) -> Result<Concluded, WriteErr>
    ensures writes { (s : Setting) (formula : QueryData → Formula) (old new : Desk) (from : Place) → Writes s formula old from new (finished reach) verdict
        → Writes s formula old from new finished_by result }
    ensures told { IfOk result (λ a. a.reach ≡ reach) }
{
    match verdict {
        Ok(verdict) => Ok(Concluded { verdict, reach }),
        Err(error) => Err(error),
    }
}

// Behind a first row: from the rows that are allowed one after the other on.
fn save_from_seen<D: Decider, Q: Queries, G: Guesses, S: Shelf>(
    alloc: Global,
    decider: &mut D,
    trial: &mut Trial,
    queries: &Q,
    guesses: &mut G,
    writer: &mut FindingWriter,
    shelf: &mut S,
    seen: &Decoded,
) -> Result<Concluded, WriteErr>
    requires compared { Q.compared queries.now ≡ comparison_of trial.old }
    requires comparison { IsComparison (comparison_of trial.old) }
    requires seen { Answers (comparison_of trial.old) questions.first (pair_of seen.now) seen.now.rows.items }
    ensures writes { Writes (setting_in trial.old) (Q.formula queries.now) (desk (S.state shelf.old) writer.old) (at_walks 0 (setting_in trial.old).start)
        (desk (S.state shelf.new) writer.new) finished_by result }
    ensures told { IfOk result (λ a. a.reach ≢ Untold) }
{
    let limit = limit_of(trial);
    guesses.begin(alloc, seen, limit)?;
    let walk = reach(alloc, decider, trial, queries, &seen.rows[0], limit)?;
    let told = write_walk(alloc, writer, shelf, &walk)?;
    let verdict = save_from_start(alloc, decider, trial, queries, guesses, writer, shelf);
    concluded(verdict, told)
}

// The first row.
fn write_seen<S: Shelf>(
    alloc: Global,
    writer: &mut FindingWriter,
    shelf: &mut S,
    found: &Decoded,
) -> Result<(), WriteErr>
    requires one { length found.now.rows.items ≡ 1 }
    requires numbers { AreNumberRows found.now.rows.items }
    ensures { (s : Setting) (formula : QueryData → Formula) (from to : Place)
        → ((row : Row) → found.now.rows.items ≡ row ∷ [] → Passes s formula from (lines.Seen row) to)
        → Writes s formula (desk (S.state shelf.old) writer.old) from
        (desk (S.state shelf.new) writer.new) (λ _. to) result }
{
    let numbers = row_numbers(alloc, &found.rows[0])?;
    write_line(writer, shelf, &Line::Seen(numbers))
}

// From the header on.
fn save_from_header<D: Decider, Q: Queries, G: Guesses, S: Shelf>(
    alloc: Global,
    decider: &mut D,
    trial: &mut Trial,
    queries: &Q,
    guesses: &mut G,
    writer: &mut FindingWriter,
    shelf: &mut S,
) -> Result<Concluded, WriteErr>
    requires compared { Q.compared queries.now ≡ comparison_of trial.old }
    requires comparison { IsComparison (comparison_of trial.old) }
    ensures writes { Writes (setting_in trial.old) (Q.formula queries.now) (desk (S.state shelf.old) writer.old) (at_header Unwalked)
        (desk (S.state shelf.new) writer.new) finished_by result }
    ensures told { IfOk result (λ a. a.reach ≢ Untold) }
{
    let limit = limit_of(trial);
    match first(alloc, decider, queries, limit)? {
        Answer::Found(found) => {
            write_seen(alloc, writer, shelf, &found)?;
            save_from_seen(
                alloc, decider, trial, queries, guesses, writer, shelf, &found,
            )
        }
        Answer::Refuted(log) => {
            write_refutation(alloc, writer, shelf, Asked::First, &log)?;
            let verdict = write_end(writer, shelf, Conclusion::Vacuous);
            concluded(verdict, Reach::Unwalked)
        }
        Answer::Spent(log) => {
            let verdict = write_spent(alloc, writer, shelf, Asked::First, &log, limit);
            concluded(verdict, Reach::Unwalked)
        }
    }
}

// From before the header on.
fn save_from_top<D: Decider, Q: Queries, G: Guesses, S: Shelf>(
    alloc: Global,
    decider: &mut D,
    trial: &mut Trial,
    queries: &Q,
    guesses: &mut G,
    writer: &mut FindingWriter,
    shelf: &mut S,
) -> Result<Concluded, WriteErr>
    requires compared { Q.compared queries.now ≡ comparison_of trial.old }
    requires comparison { IsComparison (comparison_of trial.old) }
    ensures writes { Writes (setting_in trial.old) (Q.formula queries.now) (desk (S.state shelf.old) writer.old) at_top
        (desk (S.state shelf.new) writer.new) finished_by result }
    ensures told { IfOk result (λ a. a.reach ≢ Untold) }
{
    write_line(writer, shelf, &Line::Header(Version::Two))?;
    save_from_header(alloc, decider, trial, queries, guesses, writer, shelf)
}

/// Searches for the verdict, and writes the finding that shows it into a file that is empty, line by line: each answer of the
/// decider is written before the next is asked for, but those for allowed rows, which are written as one list. It asks one query for
/// a first row, at most DEPTH - 1 for more allowed rows, at most one for each candidate and one more for the set, one for the
/// relation, and at most DEPTH for breaks.
pub fn save_finding<D: Decider, Q: Queries, G: Guesses, S: Shelf>(
    alloc: Global,
    decider: &mut D,
    trial: &mut Trial,
    queries: &Q,
    guesses: &mut G,
    writer: &mut FindingWriter,
    shelf: &mut S,
) -> Result<Concluded, WriteErr>
    requires compared { Q.compared queries.now ≡ comparison_of trial.old }
    requires comparison { IsComparison (comparison_of trial.old) }
    requires empty { IfSome ((S.state shelf.old).file writer.old.name) (λ file. file ≡ []) }
    requires unwritten { writer.old.size ≡ 0 }
    ensures valid { IfOk result (λ a. IfSome ((S.state shelf.new).file writer.old.name)
        (λ file. IsJudged (setting_in trial.old) (Q.formula queries.now) writer.old.limit file (Ok (Valid a.verdict a.reach)))) }
    ensures shown { IfOk result (λ a. IsShown (comparison_of trial.old) (Q.formula queries.now) a.verdict) }
    ensures reached { IfOk result (λ a. IsReachShown (comparison_of trial.old) (Q.formula queries.now) a.reach) }
    ensures told { IfOk result (λ a. a.reach ≢ Untold) }
    ensures part { OnErr result (IfSome ((S.state shelf.new).file writer.old.name) (IsPartOfFinding (setting_in trial.old) (Q.formula queries.now))) }
    ensures past { result ≡ Err WriteErr.M8 → IsFull (setting_in trial.old) (Q.formula queries.now) ((S.state shelf.new).file writer.old.name) writer.old.limit }
    ensures others { OthersStay (S.state shelf.old).file (S.state shelf.new).file writer.old.name }
    ensures cause { IsCausedBy WriteErr.Fault (S.state shelf.old).write_faults (S.state shelf.new).write_faults writer.old.name result }
    ensures reads { NoneFell (S.state shelf.old).read_faults (S.state shelf.new).read_faults }
{
    queries.laws();
    save_from_top(alloc, decider, trial, queries, guesses, writer, shelf)
}
