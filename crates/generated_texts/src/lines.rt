// Lines by a pattern.
ghost use Rattle.std.specs.Prelude.{◌≡◌, ◌++◌, OnOk};
ghost use Rattle.generated_texts.specs.Patterns.{filled, lines};

use itoa::Buffer;
use std::alloc::AllocError;

// Adds a pattern with the number in place of each `#`.
fn push_filled(text: &mut Vec<u8>, pattern: &str, number: u32) -> Result<(), AllocError>
    ensures { OnOk result (text.new.items ≡ text.old.items ++ filled pattern.now number) }
{
    let mut digits = Buffer::new();
    let written = digits.format(number).as_bytes();
    for byte in pattern.as_bytes() {
        if *byte == b'#' {
            text.extend_from_slice(written)?;
        } else {
            text.push(*byte)?;
        }
    }
    Ok(())
}

/// Adds a line of this pattern for each number from 1 on.
pub(crate) fn push_lines(text: &mut Vec<u8>, pattern: &str, count: u32) -> Result<(), AllocError>
    ensures { OnOk result (text.new.items ≡ text.old.items ++ lines pattern.now count) }
{
    for done in 0..count {
        push_filled(text, pattern, done + 1)?;
    }
    Ok(())
}
