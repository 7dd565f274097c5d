// The rows of an allowed list, and the log behind them.
ghost use Rattle.std.specs.Prelude.{◌≡◌, ◌≢◌, ◌≤◌, ℕ, length, IfOk};
ghost use Rattle.clause_core.specs.Formula.{Formula};
ghost use Rattle.scan_model.specs.Pairs.{Pair};
ghost use Rattle.queries.specs.Comparisons.{Comparison, IsComparison};
ghost use Rattle.queries.specs.Settings.{Setting, setting_of, first_set};
ghost use Rattle.queries.specs.Questions.{QueryData};
ghost use Rattle.judgement.specs.Places.{Place, at_walks, at_drops};
ghost use Rattle.judgement.specs.Tests.{after_walk};
ghost use Rattle.judgement.specs.declared.answers.Reach.TheVariants.{Untold};
ghost use Rattle.reach_search.specs.Walks.{EndsSo, IsWalk};
ghost use Rattle.finding_search.specs.Desks.{desk};
ghost use Rattle.finding_search.specs.Numbered.{AreNumberRows};
ghost use Rattle.finding_search.specs.Passing.{Runs};
ghost use Rattle.finding_search.specs.Shown.{walks_of};
ghost use Rattle.finding_search.specs.Writes.{Writes};

use crate::conclusions::walk_behind;
use crate::logs::{write_refutation, write_spent_log};
use crate::numbers::row_numbers;
use crate::writing::write_line;
use finding_file::{FindingWriter, WriteErr};
use finding_lines::Line;
use judgement::Reach;
use outside::Shelf;
use queries::Row;
use reach_search::{End, Walk};
use std::alloc::Global;

// The WALK lines of rows.
fn write_rows<S: Shelf>(
    alloc: Global,
    writer: &mut FindingWriter,
    shelf: &mut S,
    rows: &[Row],
) -> Result<(), WriteErr>
    requires { AreNumberRows rows.now }
    ensures { (s : Setting) (formula : QueryData → Formula) (from to : Place) → Runs s formula from (walks_of rows.now) to
        → Writes s formula (desk (S.state shelf.old) writer.old) from
        (desk (S.state shelf.new) writer.new) (λ _. to) result }
{
    for row in rows {
        let numbers = row_numbers(alloc, row)?;
        write_line(writer, shelf, &Line::Walk(numbers))?;
    }
    Ok(())
}

// What comes behind so many rows: nothing where there are DEPTH, else the log. What is said of reach.
fn write_ending<S: Shelf>(
    alloc: Global,
    writer: &mut FindingWriter,
    shelf: &mut S,
    rows: u64,
    end: &End,
) -> Result<Reach, WriteErr>
    requires { rows ≤ 64 }
    ensures writes { (c : Comparison) (formula : QueryData → Formula) (pair : Pair) → 1 ≤ rows
        → EndsSo c formula (setting_of c).conflicts rows end.now
        → Writes (setting_of c) formula (desk (S.state shelf.old) writer.old) (after_walk (setting_of c) rows pair)
        (desk (S.state shelf.new) writer.new) (λ reach. at_drops reach (first_set (setting_of c))) result }
    ensures told { IfOk result (λ reach. reach ≢ Untold) }
{
    let asked = walk_behind(rows);
    match end {
        End::Full => Ok(Reach::Greatest(rows)),
        End::Refuted(log) => {
            write_refutation(alloc, writer, shelf, asked, log)?;
            Ok(Reach::Greatest(rows))
        }
        End::Spent(log) => {
            write_spent_log(alloc, writer, shelf, asked, log)?;
            Ok(Reach::AtLeast(rows))
        }
    }
}

/// The rows of an allowed list, and the log that shows that there is none of one row more, or spends the query for it. What is said
/// of reach.
pub fn write_walk<S: Shelf>(
    alloc: Global,
    writer: &mut FindingWriter,
    shelf: &mut S,
    walk: &Walk,
) -> Result<Reach, WriteErr>
    requires few { length walk.now.rows.items ≤ 64 }
    requires numbers { AreNumberRows walk.now.rows.items }
    ensures writes { (c : Comparison) (formula : QueryData → Formula) (limit : ℕ) → IsComparison c → (setting_of c).conflicts ≡ limit
        → IsWalk c formula limit walk.now
        → Writes (setting_of c) formula (desk (S.state shelf.old) writer.old) (at_walks 0 (setting_of c).start)
        (desk (S.state shelf.new) writer.new) (λ reach. at_drops reach (first_set (setting_of c))) result }
    ensures told { IfOk result (λ reach. reach ≢ Untold) }
{
    write_rows(alloc, writer, shelf, &walk.rows)?;
    write_ending(alloc, writer, shelf, walk.rows.len() as u64, &walk.end)
}
