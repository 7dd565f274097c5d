// GEN's line.
ghost use Rattle.std.specs.Prelude.{◌≡◌, IfOk, string_bytes};
ghost use Rattle.verify_command.specs.comparison_files.Held.{comparison_in};
ghost use Rattle.gen_command.specs.Lines.{made_line};

use itoa::Buffer;
use std::alloc::{AllocError, Global};
use verify_command::Compared;

/// The line on what is made: its number, and how many cells and candidates there are.
pub(crate) fn made_line(
    alloc: Global,
    count: u32,
    compared: &Compared,
) -> Result<String, AllocError>
    ensures { IfOk result (λ line. string_bytes line ≡ made_line count (comparison_in compared.now)) }
{
    compared.laws();
    let old = compared.old_program();
    let new = compared.new_program();
    let relation = compared.relation();
    let mut digits = Buffer::new();
    let mut line = String::from_str(alloc, "GEN ")?;
    line.push_str(digits.format(count))?;
    line.push_str(" cells ")?;
    line.push_str(digits.format(old.cells.len()))?;
    line.push_str(" ")?;
    line.push_str(digits.format(new.cells.len()))?;
    line.push_str(" candidates ")?;
    line.push_str(digits.format(relation.candidates.len()))?;
    line.push_str("\n")?;
    Ok(line)
}
