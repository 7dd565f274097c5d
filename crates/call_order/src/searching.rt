// What some numbers lead to.
ghost use Rattle.std.specs.Prelude.{◌≡◌, ◌↔◌, ◌<◌, ℕ, true, length, IfOk, OnOk};
ghost use Rattle.call_order.specs.Uses.{graph_of, leads_to};
ghost use Rattle.call_order.specs.Marks.{GetMarks, is_marked};
ghost use Rattle.call_order.specs.Parts.{IsReached};

use std::alloc::{AllocError, Global};

/// Marks numbers below the length, and lets those wait that had no mark.
fn mark(numbers: &[usize], marks: &mut [bool], waiting: &mut Vec<usize>) -> Result<(), AllocError>
    ensures { OnOk result (GetMarks numbers.now marks.old marks.new waiting.old.items waiting.new.items) }
{
    for number in numbers {
        let number = *number;
        if number < marks.len() && !marks[number] {
            marks[number] = true;
            waiting.push(number)?;
        }
    }
    Ok(())
}

/// Which numbers are among the starts, or are reached from one of them.
pub fn reached(
    alloc: Global,
    uses: &[Vec<usize>],
    starts: &[usize],
) -> Result<Vec<bool>, AllocError>
    ensures len { IfOk result (λ marks. length marks.items ≡ length uses.now) }
    ensures marks { IfOk result (λ marks. (k : ℕ) → k < length uses.now → (is_marked marks.items k ≡ true) ↔ IsReached (graph_of uses.now) starts.now k) }
{
    let mut marks = vec![in alloc; false; uses.len()]?;
    let mut waiting = Vec::new(alloc);
    mark(starts, &mut marks, &mut waiting)?;
    while let Some(number) = waiting.pop() {
        mark(&uses[number], &mut marks, &mut waiting)?;
    }
    Ok(marks)
}

// Whether a number is marked.
fn is_marked(marks: &[bool], number: usize) -> bool
    ensures { result ≡ is_marked marks.now number }
{
    marks.get(number).copied().unwrap_or(false)
}

/// Whether one number leads to another.
pub fn leads_to(
    alloc: Global,
    uses: &[Vec<usize>],
    from: usize,
    to: usize,
) -> Result<bool, AllocError>
    requires { to < length uses.now }
    ensures { IfOk result (λ does. does ≡ leads_to (graph_of uses.now) from to) }
{
    let Some(first) = uses.get(from) else {
        return Ok(false);
    };
    let marks = reached(alloc, uses, first)?;
    Ok(is_marked(&marks, to))
}
