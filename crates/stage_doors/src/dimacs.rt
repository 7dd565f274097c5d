// Formulas as DIMACS writes them, and derivations over them. What is no number is read as 0, and a clause that has other
// variables than its formula's is left out.
ghost use Rattle.std.specs.Prelude.{◌<◌, ◌-◌, ◌^◌};

use clause_core::{Clause, Cnf, Hints, Lit, Step, is_within};
use std::alloc::{AllocError, Global};

/// A formula, and the steps of a derivation over it.
#[derive(Drop)]
pub struct Derivation {
    pub cnf: Cnf,
    pub steps: Vec<Step>,
}

/// Reads a formula: a line 'p cnf VARIABLES CLAUSES', and a line of literals and 0 for each clause. A line that begins with c is
/// a comment.
pub fn read_formula(alloc: Global, text: &str) -> Result<Cnf, AllocError> {
    let mut cnf = Cnf::new(alloc, 0);
    for line in text.lines() {
        if line.starts_with('p') {
            cnf = Cnf::new(alloc, variables(line));
        } else if !line.starts_with('c') && !line.is_empty() {
            add(alloc, &mut cnf, line)?;
        }
    }
    Ok(cnf)
}

/// Reads a formula without comments, and behind it a line of literals, 0, hints and 0 for each step of a derivation.
pub fn read_derivation(alloc: Global, text: &str) -> Result<Derivation, AllocError> {
    let mut cnf = Cnf::new(alloc, 0);
    let mut steps = Vec::new(alloc);
    let mut clauses = 0;
    for (i, line) in text.lines().enumerate() {
        if i == 0 {
            cnf = Cnf::new(alloc, variables(line));
            clauses = word_at(line, 3);
        } else if i as u64 <= clauses as u64 {
            add(alloc, &mut cnf, line)?;
        } else {
            steps.push(step(alloc, line)?)?;
        }
    }
    Ok(Derivation { cnf, steps })
}

/// The number that stands at that place of the line, from 0.
fn word_at(line: &str, place: usize) -> u32 {
    match line.split_whitespace().nth(place) {
        None => 0,
        Some(word) => word.parse::<u32>().unwrap_or(0),
    }
}

fn variables(line: &str) -> u32
    ensures { result < 2 ^ 32 - 1 }
{
    word_at(line, 2).min(u32::MAX - 1)
}

fn add(alloc: Global, cnf: &mut Cnf, line: &str) -> Result<(), AllocError> {
    let step = step(alloc, line)?;
    let literals = step.clause.literals();
    if is_within(cnf.variables(), literals) {
        cnf.push(literals)?;
    }
    Ok(())
}

/// A literal as DIMACS writes it: a variable's number, negative for its negative.
fn literal(number: i32) -> Lit {
    Lit {
        variable: number.unsigned_abs(),
        negative: number < 0,
    }
}

fn step(alloc: Global, line: &str) -> Result<Step, AllocError> {
    let mut clause = Clause::new(alloc);
    let mut hints = Hints::new(alloc);
    let mut is_clause = true;
    for word in line.split_whitespace() {
        let number = word.parse::<i32>().unwrap_or(0);
        if number == 0 {
            is_clause = false;
        } else if is_clause {
            clause.push(literal(number))?;
        } else {
            hints.push(number.unsigned_abs())?;
        }
    }
    Ok(Step { clause, hints })
}
