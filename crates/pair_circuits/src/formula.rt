ghost use Rattle.std.specs.Prelude.{◌≡◌, ℕ, ◌+◌, ◌-◌, ◌≤◌, ◌∷◌, [], length, IfOk, OnOk};
ghost use Rattle.clause_core.specs.Formula.{BeginsWith};
ghost use Rattle.gates.specs.Clauses.{with_clauses};
ghost use Rattle.gates.specs.Order.{IsOrdered};
ghost use Rattle.query_formulas.specs.QueryClauses.{AreInside, negations, units, some_fails, gates_formula};

use clause_core::{Cnf, Lit};
use gates::{Circuit, TRUE};
use std::alloc::{AllocError, Global};

/// The clause (1), and the clauses of a circuit's gates up to a count.
pub fn gates_formula(alloc: Global, circuit: &Circuit, count: usize) -> Result<Cnf, AllocError>
    requires inside { count ≤ length circuit.now.gates }
    requires ordered { IsOrdered circuit.now }
    ensures { IfOk result (λ f. f ≡ gates_formula circuit.now count) }
{
    circuit.count();
    circuit.limit();
    let mut formula = Cnf::new(alloc, circuit.first() - 1 + count as u32);
    formula.push(&[TRUE])?;
    circuit.add_clauses(0, count, &mut formula)?;
    Ok(formula)
}

/// Adds a clause of each literal alone. After an error it has some of them.
pub fn add_units(formula: &mut Cnf, lits: &[Lit]) -> Result<(), AllocError>
    requires { AreInside formula.old.variables lits.now }
    ensures ok { OnOk result (formula.new ≡ with_clauses formula.old (units lits.now)) }
    ensures begins { BeginsWith formula.old formula.new }
{
    formula.variables();
    for lit in lits {
        formula.push(&[*lit])?;
    }
    Ok(())
}

// The negative of each literal.
fn negatives(alloc: Global, lits: &[Lit]) -> Result<Vec<Lit>, AllocError>
    ensures { IfOk result (λ all. all.items ≡ negations lits.now) }
{
    lits.iter().map(|lit| lit.negated()).collect(alloc)
}

/// Adds the clause that one of the literals is not true.
pub fn add_some_fails(alloc: Global, formula: &mut Cnf, lits: &[Lit]) -> Result<(), AllocError>
    requires { AreInside formula.old.variables lits.now }
    ensures { OnOk result (formula.new ≡ with_clauses formula.old (some_fails lits.now ∷ [])) }
{
    let negatives = negatives(alloc, lits)?;
    formula.push(negatives.as_slice())
}

/// Adds a clause of each literal's negative alone. After an error it has some of them.
pub fn add_negative_units(alloc: Global, formula: &mut Cnf, lits: &[Lit]) -> Result<(), AllocError>
    requires { AreInside formula.old.variables lits.now }
    ensures ok { OnOk result (formula.new ≡ with_clauses formula.old (units (negations lits.now))) }
{
    let negatives = negatives(alloc, lits)?;
    add_units(formula, negatives.as_slice())
}
