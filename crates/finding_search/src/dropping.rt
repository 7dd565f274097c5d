// Rows that drop candidates, up to a set that no row leads out of.
ghost use Rattle.std.specs.Prelude.{◌≡◌, ◌≢◌, ◌<◌, ◌≤◌, IfOk, OnOk};
ghost use Rattle.scan_model.specs.Verdicts.{size_below};
ghost use Rattle.scan_replay.specs.Duos.{with_pair};
ghost use Rattle.queries.specs.Comparisons.{IsComparison};
ghost use Rattle.clause_core.specs.Formula.{Formula};
ghost use Rattle.queries.specs.Questions.{QueryData, step};
ghost use Rattle.queries.specs.Meaning.{Answers};
ghost use Rattle.queries.specs.Sets.{members};
ghost use Rattle.pair_trial.specs.Trials.{comparison_of, setting_in};
ghost use Rattle.judgement.specs.Places.{at_drops};
ghost use Rattle.judgement.specs.declared.answers.Reach.{Reach};
ghost use Rattle.judgement.specs.declared.answers.Reach.TheVariants.{Untold};
ghost use Rattle.invariant_prune.specs.Answers.{pair_of};
ghost use Rattle.invariant_prune.specs.Kept.{IsKept};
ghost use Rattle.finding_search.specs.Desks.{desk};
ghost use Rattle.finding_search.specs.Places.{IsPruned, place_of};
ghost use Rattle.finding_search.specs.Writes.{StandsAt, Writes};

use crate::conclusions::limit_of;
use crate::guesses::drops;
use crate::logs::{write_refutation, write_spent};
use crate::numbers::pair_numbers;
use crate::writing::write_line;
use clause_core::{Cnf, Decider};
use finding_file::{FindingWriter, WriteErr};
use finding_lines::{Asked, Conclusion, Line};
use invariant_prune::{Answer, Guesses, next_drop};
use outside::Shelf;
use pair_trial::{Trial, keep};
use queries::{CandidateSet, Decoded, Queries};
use std::alloc::Global;

/// How the dropping of candidates ends.
#[derive(Drop)]
pub enum Pruned {
    /// No allowed row leads out of the set.
    Kept(CandidateSet),
    /// A query took too many steps, and the finding is at its end.
    Spent(Conclusion),
}

// Writes a row that drops candidates, and drops them.
fn drop_by<S: Shelf>(
    alloc: Global,
    trial: &mut Trial,
    writer: &mut FindingWriter,
    shelf: &mut S,
    found: &Decoded,
    set: &mut CandidateSet,
) -> Result<(), WriteErr>
    requires comparison { IsComparison (comparison_of trial.old) }
    requires found { Answers (comparison_of trial.old) (step (members set.old)) (pair_of found.now) found.now.rows.items }
    ensures writes { (reach : Reach) (formula : QueryData → Formula) → Writes (setting_in trial.old) formula (desk (S.state shelf.old) writer.old) (at_drops reach (members set.old))
        (desk (S.state shelf.new) writer.new) (λ _. at_drops reach (members set.new)) result }
    ensures fewer { OnOk result (size_below (setting_in trial.old).candidates (members set.new) < size_below (setting_in trial.old).candidates (members set.old)) }
    ensures trial { trial.new ≡ with_pair trial.new.pair trial.old }
{
    let row = &found.rows[0];
    let numbers = pair_numbers(alloc, found, row)?;
    write_line(writer, shelf, &Line::Dropping(numbers))?;
    trial.set_pair(&found.old, &found.new);
    trial.step(row.as_slice());
    keep(trial, set);
    Ok(())
}

// Drops candidates by the rows that are proposed, as long as each of them drops some, and writes each.
fn drop_guessed<G: Guesses, S: Shelf>(
    alloc: Global,
    trial: &mut Trial,
    guesses: &mut G,
    writer: &mut FindingWriter,
    shelf: &mut S,
    set: &mut CandidateSet,
) -> Result<(), WriteErr>
    requires comparison { IsComparison (comparison_of trial.old) }
    ensures writes { (reach : Reach) (formula : QueryData → Formula) → Writes (setting_in trial.old) formula (desk (S.state shelf.old) writer.old) (at_drops reach (members set.old))
        (desk (S.state shelf.new) writer.new) (λ _. at_drops reach (members set.new)) result }
    ensures no_more { OnOk result (size_below (setting_in trial.old).candidates (members set.new) ≤ size_below (setting_in trial.old).candidates (members set.old)) }
    ensures trial { trial.new ≡ with_pair trial.new.pair trial.old }
{
    'tries: while let Some(guess) = guesses.next(alloc, set)? {
        if !drops(trial, set, &guess) {
            return Ok(());
        }
        drop_by(alloc, trial, writer, shelf, &guess, set)?;
    }
    Ok(())
}

/// Drops candidates until no allowed row leads out of the set, and writes each row, and the log that shows the end. What is
/// proposed is tried before each query.
pub fn prune<D: Decider, Q: Queries, G: Guesses, S: Shelf>(
    alloc: Global,
    decider: &mut D,
    trial: &mut Trial,
    queries: &Q,
    kept: &mut Option<Cnf>,
    guesses: &mut G,
    writer: &mut FindingWriter,
    shelf: &mut S,
    mut set: CandidateSet,
) -> Result<Pruned, WriteErr>
    requires compared { Q.compared queries.now ≡ comparison_of trial.old }
    requires comparison { IsComparison (comparison_of trial.old) }
    requires kept { IsKept (Q.front queries.now) kept.old }
    ensures writes { (reach : Reach) → reach ≢ Untold → Writes (setting_in trial.old) (Q.formula queries.now) (desk (S.state shelf.old) writer.old) (at_drops reach (members set))
        (desk (S.state shelf.new) writer.new) (place_of reach) result }
    ensures kept { IsKept (Q.front queries.now) kept.new }
    // Where the lines before it pass, the set that is kept is the greatest inductive one.
    ensures greatest { (reach : Reach) → reach ≢ Untold → StandsAt (setting_in trial.old) (Q.formula queries.now) (desk (S.state shelf.old) writer.old) (at_drops reach (members set))
        → IfOk result (IsPruned (comparison_of trial.old) (Q.formula queries.now)) }
    ensures trial { trial.new ≡ with_pair trial.new.pair trial.old }
{
    queries.laws();
    let limit = limit_of(trial);
    'rows: loop {
        drop_guessed(alloc, trial, guesses, writer, shelf, &mut set)?;
        match next_drop(alloc, decider, queries, kept, guesses, &set, limit)? {
            Answer::Found(found) => {
                drop_by(alloc, trial, writer, shelf, &found, &mut set)?;
                guesses.found(alloc, &found)?;
            }
            Answer::Refuted(log) => {
                write_refutation(alloc, writer, shelf, Asked::Step, &log)?;
                return Ok(Pruned::Kept(set));
            }
            Answer::Spent(log) => {
                let verdict = write_spent(alloc, writer, shelf, Asked::Step, &log, limit)?;
                return Ok(Pruned::Spent(verdict));
            }
        }
    }
}
