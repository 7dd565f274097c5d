// Marks on the POUs that may run.
ghost use Rattle.std.specs.Prelude.{◌≡◌, OnOk};
ghost use Rattle.call_order.specs.Marks.{GetMarks, is_marked};

use std::alloc::AllocError;

/// Marks numbers below the length, and lets those wait that had no mark.
pub fn mark(
    numbers: &[usize],
    marks: &mut [bool],
    waiting: &mut Vec<usize>,
) -> Result<(), AllocError>
    ensures { OnOk result (GetMarks numbers.now marks.old marks.new waiting.old.items waiting.new.items) }
{
    for number in numbers {
        let number = *number;
        if number < marks.len() && !marks[number] {
            marks[number] = true;
            waiting.push(number)?;
        }
    }
    Ok(())
}

/// Whether a number is marked.
pub fn is_marked(marks: &[bool], number: usize) -> bool
    ensures { result ≡ is_marked marks.now number }
{
    marks.get(number).copied().unwrap_or(false)
}
