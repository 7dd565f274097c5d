// The rows of a break.
ghost use Rattle.std.specs.Prelude.{◌≡◌, ◌≤◌, pos, length};
ghost use Rattle.clause_core.specs.Formula.{Formula};
ghost use Rattle.finding_lines.specs.declared.line.Conclusion.TheVariants as conclusions;
ghost use Rattle.queries.specs.Settings.{Setting};
ghost use Rattle.queries.specs.Questions.{QueryData};
ghost use Rattle.judgement.specs.Places.{Place, at_end, finished};
ghost use Rattle.judgement.specs.declared.answers.Reach.{Reach};
ghost use Rattle.finding_search.specs.Desks.{desk};
ghost use Rattle.finding_search.specs.Numbered.{AreNumberRows};
ghost use Rattle.finding_search.specs.Passing.{Runs};
ghost use Rattle.finding_search.specs.Shown.{scans_of};
ghost use Rattle.finding_search.specs.Writes.{Writes};

use crate::conclusions::different_at;
use crate::numbers::row_numbers;
use crate::writing::{write_end, write_line};
use finding_file::{FindingWriter, WriteErr};
use finding_lines::{Conclusion, Line};
use outside::Shelf;
use queries::Row;
use std::alloc::Global;

// The SCAN lines of rows.
fn write_scans<S: Shelf>(
    alloc: Global,
    writer: &mut FindingWriter,
    shelf: &mut S,
    rows: &[Row],
) -> Result<(), WriteErr>
    requires { AreNumberRows rows.now }
    ensures { (s : Setting) (formula : QueryData → Formula) (from to : Place) → Runs s formula from (scans_of rows.now) to
        → Writes s formula (desk (S.state shelf.old) writer.old) from
        (desk (S.state shelf.new) writer.new) (λ _. to) result }
{
    for row in rows {
        let numbers = row_numbers(alloc, row)?;
        write_line(writer, shelf, &Line::Scan(numbers))?;
    }
    Ok(())
}

/// A break of so many scans, and the END line.
pub fn write_break<S: Shelf>(
    alloc: Global,
    writer: &mut FindingWriter,
    shelf: &mut S,
    rows: &[Row],
    scans: u64,
) -> Result<Conclusion, WriteErr>
    requires few { scans ≤ 64 }
    requires numbers { AreNumberRows rows.now }
    ensures { (s : Setting) (formula : QueryData → Formula) (from : Place) (reach : Reach)
        → Runs s formula from (scans_of rows.now) (at_end reach (conclusions.Different (pos scans)))
        → Writes s formula (desk (S.state shelf.old) writer.old) from
        (desk (S.state shelf.new) writer.new) (finished reach) result }
{
    write_scans(alloc, writer, shelf, rows)?;
    write_end(writer, shelf, different_at(scans))
}
