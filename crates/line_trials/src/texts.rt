// The text of a relation with INVARIANT lines behind it.
ghost use Rattle.std.specs.Prelude.{◌≡◌, ◌++◌, IfOk, OnOk};
ghost use Rattle.line_trials.specs.Lines.{line_view, noted, lines_view, line_text, lines_text, with_lines};

use crate::line::InvariantLine;
use std::alloc::{AllocError, Global};

// Adds three texts with a note behind them.
fn add_noted(
    text: &mut Vec<u8>,
    before: &[u8],
    line: &InvariantLine,
    between: &[u8],
) -> Result<(), AllocError>
    ensures { OnOk result (text.new.items ≡ text.old.items ++ noted before.now (line_view line.now) between.now) }
{
    text.extend_from_slice(before)?;
    text.extend_from_slice(line.clause.as_bytes())?;
    text.extend_from_slice(between)?;
    text.extend_from_slice(line.note.as_bytes())?;
    text.extend_from_slice(b" *)\n")?;
    Ok(())
}

fn add_line(text: &mut Vec<u8>, line: &InvariantLine) -> Result<(), AllocError>
    ensures { OnOk result (text.new.items ≡ text.old.items ++ line_text (line_view line.now)) }
{
    if line.is_kept {
        add_noted(text, b"INVARIANT ", line, b"; (* ")
    } else {
        add_noted(text, b"(* INVARIANT ", line, b"; ")
    }
}

fn add_lines(text: &mut Vec<u8>, lines: &[InvariantLine]) -> Result<(), AllocError>
    ensures { OnOk result (text.new.items ≡ text.old.items ++ lines_text (lines_view lines.now)) }
{
    for line in lines {
        add_line(text, line)?;
    }
    Ok(())
}

/// A text with lines behind it.
pub fn with_lines(
    alloc: Global,
    text: &[u8],
    lines: &[InvariantLine],
) -> Result<Vec<u8>, AllocError>
    ensures { IfOk result (λ made. made.items ≡ with_lines text.now (lines_view lines.now)) }
{
    let mut made = Vec::from_slice(alloc, text)?;
    if lines.is_empty() {
        return Ok(made);
    }
    made.extend_from_slice(b"\n")?;
    add_lines(&mut made, lines)?;
    Ok(made)
}
