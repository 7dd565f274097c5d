// What the checker of derivations answers to the steps behind a formula.
use crate::dimacs::Derivation;
use clause_core::{Step, is_rising};
use derivation_check::{Ack, Checker};
use std::alloc::{AllocError, Global};

/// Whether a step's clause is fresh, and what the checker answers to it.
fn step_line(alloc: Global, checker: &mut Checker, step: &Step) -> Result<String, AllocError> {
    if !is_rising(checker.variables(), step.clause.literals()) {
        return String::from_str(alloc, "malformed");
    }
    let fresh = if checker.fresh(step) { "fresh, " } else { "" };
    match checker.step(step) {
        Err(fault) => format!(in alloc; "{fresh}{fault}"),
        Ok(Ack) if checker.refuted() => format!(in alloc; "{fresh}accepted, refuted"),
        Ok(Ack) => format!(in alloc; "{fresh}accepted"),
    }
}

/// A line for each step, which the checker is given whatever it answered to those before.
pub(crate) fn step_lines(alloc: Global, derivation: Derivation) -> Result<String, AllocError> {
    let Derivation { cnf, steps } = derivation;
    let mut checker = Checker::new(alloc, cnf)?;
    let mut lines = String::new(alloc);
    for step in &steps {
        let line = step_line(alloc, &mut checker, step)?;
        lines.push_str(line.as_str())?;
        lines.push_str("\n")?;
    }
    Ok(lines)
}
