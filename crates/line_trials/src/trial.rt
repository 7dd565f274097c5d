// From lines that were proposed to those that are taken: the text with them is read back, and what is refused or does not hold on all
// pairs is left out, until all holds.
ghost use Rattle.std.specs.Prelude.{IfOk};
ghost use Rattle.program_tree.specs.View.{program_view};
ghost use Rattle.scan_model.specs.InRange.{IsFitToRun};
ghost use Rattle.line_trials.specs.Held.{runs_of};
ghost use Rattle.line_trials.specs.Lines.{lines_view};
ghost use Rattle.line_trials.specs.Suggested.{IsHeldOrNot};

use crate::failing::failing;
use crate::held::held_on_runs;
use crate::line::InvariantLine;
use crate::reading::read_back;
use crate::texts::with_lines;
use plc_types::Value;
use program_tree::Program;
use rules::Fault;
use std::alloc::{AllocError, Global};

/// What came of lines: they held, and this is the text with them; the text was refused at a place; or some did not hold.
#[derive(Drop)]
pub enum Trial {
    Held(Vec<u8>),
    Refused(usize),
    Failed(Vec<bool>),
}

/// Reads the text with the lines, and tries them on the runs. The relation has `given` INVARIANT clauses without them.
pub fn try_lines(
    alloc: Global,
    old: &Program,
    new: &Program,
    given: usize,
    text: &[u8],
    lines: &[InvariantLine],
    runs: &[Vec<Vec<Value>>],
) -> Result<Trial, AllocError>
    requires old { IsFitToRun (program_view old.now) }
    requires new { IsFitToRun (program_view new.now) }
    ensures { IfOk result (IsHeldOrNot (program_view old.now) (program_view new.now) given text.now (lines_view lines.now) (runs_of runs.now)) }
{
    let made = with_lines(alloc, text, lines)?;
    let relation = match read_back(alloc, old, new, made.as_slice()) {
        Ok(relation) => relation,
        Err(Fault::Refused(refusal)) => return Ok(Trial::Refused(refusal.at)),
        Err(Fault::Memory) => return Err(AllocError),
    };
    let count = relation.invariant_clauses().len().saturating_sub(given);
    if held_on_runs(alloc, old, new, &relation, given, count, runs)? {
        return Ok(Trial::Held(made));
    }
    let marks = failing(alloc, old, new, &relation, given, runs)?;
    Ok(Trial::Failed(marks))
}
