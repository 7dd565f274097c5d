// Logs: the line that opens one, its steps, and what follows a spent one.
ghost use Rattle.std.specs.Prelude.{◌≡◌, ◌≢◌, ℕ, pos};
ghost use Rattle.clause_core.specs.Formula.{Formula};
ghost use Rattle.clause_core.specs.Decisions.{IsRefutation, IsSpent};
ghost use Rattle.finding_lines.specs.declared.line.Line.TheVariants as lines;
ghost use Rattle.finding_lines.specs.declared.line.Conclusion.TheVariants as conclusions;
ghost use Rattle.finding_lines.specs.Form.{AskedFits, IsEnding};
ghost use Rattle.queries.specs.Settings.{Setting};
ghost use Rattle.queries.specs.Questions.{QueryData};
ghost use Rattle.judgement.specs.Steps.{opened};
ghost use Rattle.judgement.specs.Places.{Place, in_log, in_query, finished, reach_at};
ghost use Rattle.judgement.specs.declared.answers.Reach.{Reach};
ghost use Rattle.judgement.specs.declared.answers.Reach.TheVariants.{Untold};
ghost use Rattle.finding_search.specs.Desks.{desk};
ghost use Rattle.finding_search.specs.Passing.{Passes, Runs};
ghost use Rattle.finding_search.specs.Shown.{lines_of};
ghost use Rattle.finding_search.specs.Writes.{Writes};

use crate::conclusions::spent_by;
use crate::numbers::entry_line;
use crate::writing::{write_end, write_line};
use clause_core::{Entry, Log};
use finding_file::{FindingWriter, WriteErr};
use finding_lines::{Asked, Conclusion, Line};
use outside::Shelf;
use std::alloc::Global;

// The lines of steps and deletions.
fn write_steps<S: Shelf>(
    alloc: Global,
    writer: &mut FindingWriter,
    shelf: &mut S,
    entries: &[Entry],
) -> Result<(), WriteErr>
    ensures { (s : Setting) (formula : QueryData → Formula) (from to : Place) → Runs s formula from (lines_of entries.now) to
        → Writes s formula (desk (S.state shelf.old) writer.old) from
        (desk (S.state shelf.new) writer.new) (λ _. to) result }
{
    for entry in entries {
        let line = entry_line(alloc, entry)?;
        write_line(writer, shelf, &line)?;
    }
    Ok(())
}

/// The log that refutes a query's formula, with the LOG line before it. The finding is of version 2, since its log may list deletions.
pub fn write_refutation<S: Shelf>(
    alloc: Global,
    writer: &mut FindingWriter,
    shelf: &mut S,
    asked: Asked,
    log: &Log,
) -> Result<(), WriteErr>
    requires { AskedFits asked }
    ensures { (s : Setting) (formula : QueryData → Formula) (f : Formula) (limit : ℕ) (from behind : Place) → reach_at behind ≢ Untold
        → Passes s formula from (lines.Log asked) (in_log (opened f) behind) → IsRefutation f limit log.now
        → Writes s formula (desk (S.state shelf.old) writer.old) from
        (desk (S.state shelf.new) writer.new) (λ _. behind) result }
{
    write_line(writer, shelf, &Line::Log(asked))?;
    write_steps(alloc, writer, shelf, log.entries())
}

/// The log that is to spend a query, with the QUERY line before it.
pub fn write_spent_log<S: Shelf>(
    alloc: Global,
    writer: &mut FindingWriter,
    shelf: &mut S,
    asked: Asked,
    log: &Log,
) -> Result<(), WriteErr>
    requires { AskedFits asked }
    ensures { (s : Setting) (formula : QueryData → Formula) (from inside to : Place)
        → Passes s formula from (lines.Query asked) inside → Runs s formula inside (lines_of log.now) to
        → Writes s formula (desk (S.state shelf.old) writer.old) from
        (desk (S.state shelf.new) writer.new) (λ _. to) result }
{
    write_line(writer, shelf, &Line::Query(asked))?;
    write_steps(alloc, writer, shelf, log.entries())
}

/// The same, and the END line: SPENT after so many steps.
pub fn write_spent<S: Shelf>(
    alloc: Global,
    writer: &mut FindingWriter,
    shelf: &mut S,
    asked: Asked,
    log: &Log,
    limit: u32,
) -> Result<Conclusion, WriteErr>
    requires { AskedFits asked }
    ensures { (s : Setting) (formula : QueryData → Formula) (f : Formula) (from : Place) (reach : Reach) → reach ≢ Untold → s.conflicts ≡ limit
        → IsEnding (conclusions.Spent asked (pos limit))
        → Passes s formula from (lines.Query asked) (in_query reach asked (opened f) s.conflicts) → IsSpent f s.conflicts log.now
        → Writes s formula (desk (S.state shelf.old) writer.old) from
        (desk (S.state shelf.new) writer.new) (finished reach) result }
{
    write_spent_log(alloc, writer, shelf, asked, log)?;
    write_end(writer, shelf, spent_by(asked, limit))
}
