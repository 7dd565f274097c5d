// One line.
ghost use Rattle.clause_core.specs.Formula.{Formula};
ghost use Rattle.finding_lines.specs.declared.line.Line.TheVariants as lines;
ghost use Rattle.finding_lines.specs.Form.{Fits, ConclusionFits};
ghost use Rattle.queries.specs.Settings.{Setting};
ghost use Rattle.queries.specs.Questions.{QueryData};
ghost use Rattle.judgement.specs.Places.{Place, finished};
ghost use Rattle.judgement.specs.declared.answers.Reach.{Reach};
ghost use Rattle.finding_search.specs.Desks.{desk};
ghost use Rattle.finding_search.specs.Passing.{Passes};
ghost use Rattle.finding_search.specs.Writes.{Writes};

use finding_file::{FindingWriter, WriteErr};
use finding_lines::{Conclusion, Line};
use outside::Shelf;

/// Writes a line that passes.
pub fn write_line<S: Shelf>(
    writer: &mut FindingWriter,
    shelf: &mut S,
    line: &Line,
) -> Result<(), WriteErr>
    requires { Fits line.now }
    ensures { (s : Setting) (formula : QueryData → Formula) (from to : Place) → Passes s formula from line.now to
        → Writes s formula (desk (S.state shelf.old) writer.old) from
        (desk (S.state shelf.new) writer.new) (λ _. to) result }
{
    writer.line(shelf, line)
}

/// Writes the END line.
pub fn write_end<S: Shelf>(
    writer: &mut FindingWriter,
    shelf: &mut S,
    verdict: Conclusion,
) -> Result<Conclusion, WriteErr>
    requires { ConclusionFits verdict }
    ensures { (s : Setting) (formula : QueryData → Formula) (from : Place) (reach : Reach)
        → Passes s formula from (lines.End verdict) (finished reach verdict)
        → Writes s formula (desk (S.state shelf.old) writer.old) from
        (desk (S.state shelf.new) writer.new) (finished reach) result }
{
    write_line(writer, shelf, &Line::End(verdict))?;
    Ok(verdict)
}
