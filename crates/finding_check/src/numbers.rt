// The numbers of a D line as a step, and those of an X line.
ghost use Rattle.std.specs.Prelude.{◌≡◌, ◌<◌, true, false, length, pos, slice_index_or, IfOk, MatchOption};
ghost use Rattle.std.specs.Int.RustNames.{unsigned_abs};
ghost use Rattle.clause_core.specs.Clauses.{rises};
ghost use Rattle.judgement.specs.Steps.{literal_of, clause_of};
ghost use Rattle.finding_check.specs.Numbers.{short_hint, short_hints};

use clause_core::{Clause, Hints, Lit, Step, is_rising};
use plc_types::Value;
use std::alloc::{AllocError, Global};

// The literal of the number at a place, if its variable is at most that.
fn literal_at(variables: u32, numbers: &[Value], place: usize) -> Option<Lit>
    requires { place < length numbers.now }
    ensures { MatchOption result (variables < unsigned_abs (slice_index_or numbers.now place (pos 0))) (λ l. l ≡ literal_of (slice_index_or numbers.now place (pos 0))) }
{
    let number = numbers[place];
    let variable = number.unsigned_abs();
    if variable > u128::from(variables) {
        return None;
    }
    Some(Lit {
        variable: variable as u32,
        negative: number < 0,
    })
}

// The literals of numbers, if their variables are at most that.
fn literals_of(
    alloc: Global,
    variables: u32,
    numbers: &[Value],
) -> Result<Option<Clause>, AllocError>
    ensures { IfOk result (λ o. MatchOption o (rises variables (clause_of numbers.now) ≡ false) (λ clause. clause ≡ clause_of numbers.now)) }
{
    let mut clause = Clause::new(alloc);
    for place in 0..numbers.len() {
        let Some(literal) = literal_at(variables, numbers, place) else {
            return Ok(None);
        };
        clause.push(literal)?;
    }
    Ok(Some(clause))
}

/// The clause of some literals, if their variables rise and are at most that.
pub fn clause_of(
    alloc: Global,
    variables: u32,
    numbers: &[Value],
) -> Result<Option<Clause>, AllocError>
    ensures { IfOk result (λ o. MatchOption o (rises variables (clause_of numbers.now) ≡ false)
        (λ clause. (rises variables (clause_of numbers.now) ≡ true) × (clause ≡ clause_of numbers.now))) }
{
    let Some(clause) = literals_of(alloc, variables, numbers)? else {
        return Ok(None);
    };
    if is_rising(variables, clause.literals()) {
        Ok(Some(clause))
    } else {
        Ok(None)
    }
}

/// The number of a clause, as a D line or an X line gives it: one that is not above 0, or has more than 32 bits, is that of none.
pub fn short_hint(number: Value) -> u32
    ensures { result ≡ short_hint number }
{
    if 0 <= number && number < 0x1_0000_0000 {
        number as u32
    } else {
        0
    }
}

/// The hints of some numbers.
pub fn hints_of(alloc: Global, numbers: &[Value]) -> Result<Hints, AllocError>
    ensures { IfOk result (λ hints. hints ≡ short_hints numbers.now) }
{
    let mut hints = Hints::new(alloc);
    for number in numbers {
        hints.push(short_hint(*number))?;
    }
    Ok(hints)
}

/// The step of a D line, if the variables of its clause rise and are at most that.
pub fn step_of(
    alloc: Global,
    variables: u32,
    literals: &[Value],
    hints: &[Value],
) -> Result<Option<Step>, AllocError>
    ensures { IfOk result (λ o. MatchOption o (rises variables (clause_of literals.now) ≡ false)
        (λ step. (rises variables (clause_of literals.now) ≡ true) × (step.clause ≡ clause_of literals.now) × (step.hints ≡ short_hints hints.now))) }
{
    let Some(clause) = clause_of(alloc, variables, literals)? else {
        return Ok(None);
    };
    let hints = hints_of(alloc, hints)?;
    Ok(Some(Step { clause, hints }))
}
