// The numbers of lines.
ghost use Rattle.std.specs.Prelude.{◌≡◌, ◌++◌, map, pos, IfOk, OnOk};
ghost use Rattle.clause_core.specs.declared.log.Entry.TheVariants.{Derived, Deleted};
ghost use Rattle.finding_lines.specs.Numbers.{IsNumber, AreNumbers};
ghost use Rattle.finding_lines.specs.Form.{Fits};
ghost use Rattle.invariant_prune.specs.Answers.{pair_of};
ghost use Rattle.finding_search.specs.Numbered.{HasNumbers};
ghost use Rattle.finding_search.specs.Shown.{number_of, numbers_of, line_of};

use clause_core::{Entry, Lit, Step};
use finding_lines::{Line, Numbers};
use plc_types::Value;
use queries::{Decoded, Row};
use std::alloc::{AllocError, Global};

// Adds numbers behind the others.
fn add_all(numbers: &mut Numbers, more: &[Value]) -> Result<(), AllocError>
    requires { AreNumbers more.now }
    ensures { OnOk result (numbers.new ≡ numbers.old ++ more.now) }
{
    for number in more {
        numbers.push(*number)?;
    }
    Ok(())
}

/// The numbers of a row.
pub fn row_numbers(alloc: Global, row: &Row) -> Result<Numbers, AllocError>
    requires { AreNumbers row.now }
    ensures same { IfOk result (λ numbers. numbers ≡ row.now) }
    ensures fit { IfOk result (λ numbers. AreNumbers numbers) }
{
    let mut numbers = Numbers::new(alloc);
    add_all(&mut numbers, row.as_slice())?;
    Ok(numbers)
}

/// The numbers of a pair and a row.
pub fn pair_numbers(alloc: Global, found: &Decoded, row: &Row) -> Result<Numbers, AllocError>
    requires found { HasNumbers found.now }
    requires row { AreNumbers row.now }
    ensures same { IfOk result (λ numbers. numbers ≡ numbers_of (pair_of found.now) row.now) }
    ensures fit { IfOk result (λ numbers. AreNumbers numbers) }
{
    let mut numbers = Numbers::new(alloc);
    add_all(&mut numbers, &found.old)?;
    add_all(&mut numbers, &found.new)?;
    add_all(&mut numbers, row.as_slice())?;
    Ok(numbers)
}

fn literal_number(literal: Lit) -> Value
    ensures same { result ≡ number_of literal }
    ensures fits { IsNumber result }
{
    let number = Value::from(literal.variable);
    if literal.negative { -number } else { number }
}

fn literal_numbers(alloc: Global, literals: &[Lit]) -> Result<Numbers, AllocError>
    ensures same { IfOk result (λ numbers. numbers ≡ map number_of literals.now) }
    ensures fit { IfOk result (λ numbers. AreNumbers numbers) }
{
    let mut numbers = Numbers::new(alloc);
    for literal in literals {
        numbers.push(literal_number(*literal))?;
    }
    Ok(numbers)
}

fn clause_number(number: u32) -> Value
    ensures same { result ≡ pos number }
    ensures fits { IsNumber result }
{
    Value::from(number)
}

fn hint_numbers(alloc: Global, hints: &[u32]) -> Result<Numbers, AllocError>
    ensures same { IfOk result (λ numbers. numbers ≡ map pos hints.now) }
    ensures fit { IfOk result (λ numbers. AreNumbers numbers) }
{
    let mut numbers = Numbers::new(alloc);
    for hint in hints {
        numbers.push(clause_number(*hint))?;
    }
    Ok(numbers)
}

/// The line of a step.
pub fn step_line(alloc: Global, step: &Step) -> Result<Line, AllocError>
    ensures same { IfOk result (λ line. line ≡ line_of (Derived step.now)) }
    ensures fits { IfOk result (λ line. Fits line) }
{
    let literals = literal_numbers(alloc, step.clause.literals())?;
    let hints = hint_numbers(alloc, step.hints.numbers())?;
    Ok(Line::Derived(literals, hints))
}

/// The line of a deletion.
pub fn deletion_line(alloc: Global, number: u32) -> Result<Line, AllocError>
    ensures same { IfOk result (λ line. line ≡ line_of (Deleted number)) }
    ensures fits { IfOk result (λ line. Fits line) }
{
    let mut numbers = Numbers::new(alloc);
    numbers.push(clause_number(number))?;
    Ok(Line::Deleted(numbers))
}

/// The line of an entry of a log.
pub fn entry_line(alloc: Global, entry: &Entry) -> Result<Line, AllocError>
    ensures same { IfOk result (λ line. line ≡ line_of entry.now) }
    ensures fits { IfOk result (λ line. Fits line) }
{
    match entry {
        Entry::Derived(step) => step_line(alloc, step),
        Entry::Deleted(number) => deletion_line(alloc, *number),
    }
}
