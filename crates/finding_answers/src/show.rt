// What is said of a finding that is not valid, as text.
ghost use Rattle.std.specs.Prelude.{◌≡◌, IfOk, string_bytes};
ghost use Rattle.finding_answers.specs.Lines.{reason_name, invalid_line};

use itoa::Buffer;
use judgement::Reason;
use std::alloc::{AllocError, Global};

fn reason_name(reason: Reason) -> &'static str
    ensures { result.now ≡ reason_name reason }
{
    match reason {
        Reason::B1 => "B1",
        Reason::B2 => "B2",
        Reason::B3 => "B3",
        Reason::B4 => "B4",
        Reason::B5 => "B5",
        Reason::B6 => "B6",
        Reason::B7 => "B7",
        Reason::B8 => "B8",
        Reason::B9 => "B9",
        Reason::B10 => "B10",
        Reason::B11 => "B11",
        Reason::B12 => "B12",
        Reason::B13 => "B13",
        Reason::B14 => "B14",
    }
}

/// The line on a finding of which a line fails a test.
pub(crate) fn invalid_line(alloc: Global, number: u64, reason: Reason) -> Result<String, AllocError>
    ensures { IfOk result (λ line. string_bytes line ≡ invalid_line number reason) }
{
    let mut digits = Buffer::new();
    let mut line = String::from_str(alloc, "INVALID line ")?;
    line.push_str(digits.format(number))?;
    line.push_str(" ")?;
    line.push_str(reason_name(reason))?;
    line.push_str("\n")?;
    Ok(line)
}
