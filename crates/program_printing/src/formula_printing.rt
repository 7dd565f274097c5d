// The clauses of a formula as a text: a line for each, in parentheses.
use clause_core::{Clause, Cnf};
use std::alloc::{AllocError, Global};

/// The printed clauses of a formula. A literal is the number of its variable, with a minus where it is negative.
pub fn print_formula(alloc: Global, formula: &Cnf) -> Result<String, AllocError> {
    let mut text = String::new(alloc);
    for clause in formula.clauses() {
        print_clause(alloc, clause, &mut text)?;
    }
    Ok(text)
}

fn print_clause(alloc: Global, clause: &Clause, text: &mut String) -> Result<(), AllocError> {
    let mut blank = "(";
    for lit in clause.literals() {
        let sign = if lit.negative { "-" } else { "" };
        let variable = lit.variable;
        text.push_str(format!(in alloc; "{blank}{sign}{variable}")?.as_str())?;
        blank = " ";
    }
    let end = if clause.literals().is_empty() {
        "()\n"
    } else {
        ")\n"
    };
    text.push_str(end)
}
