ghost use Rattle.std.specs.Prelude.{◌≡◌, length, IfOk, OnOk};
ghost use Rattle.queries.specs.Sets.{members};
ghost use Rattle.pair_circuits.specs.Views.{product_view};
ghost use Rattle.query_formulas.specs.QueryClauses.{IsProductInOrder, gates_formula, with_gates, premises_of, step_formula, goal_formula};

use clause_core::Cnf;
use pair_circuits::{
    Product, add_negative_units, add_some_fails, add_units, gates_formula, member_lits,
};
use queries::CandidateSet;
use std::alloc::{AllocError, Global};

/// What the formulas of STEP and GOAL begin with: the clauses of the gates.
pub(crate) fn gates_of(alloc: Global, product: &Product) -> Result<Cnf, AllocError>
    requires { IsProductInOrder (product_view product.now).lits }
    ensures { IfOk result (λ f. f ≡ gates_formula product.now.circuit (length product.now.circuit.gates)) }
{
    gates_formula(alloc, &product.circuit, product.circuit.count())
}

// Adds what STEP and GOAL have in common: what is given.
fn add_premises(
    alloc: Global,
    product: &Product,
    set: &CandidateSet,
    formula: &mut Cnf,
) -> Result<(), AllocError>
    requires order { IsProductInOrder (product_view product.now).lits }
    requires begun { formula.old ≡ gates_formula product.now.circuit (length product.now.circuit.gates) }
    ensures { OnOk result (formula.new ≡ with_gates product.now.circuit (length product.now.circuit.gates) (premises_of (product_view product.now).lits (members set.now))) }
{
    let members = member_lits(alloc, set, product.lits.before.as_slice())?;
    add_negative_units(alloc, formula, product.lits.outside.as_slice())?;
    add_units(formula, members.as_slice())?;
    add_units(formula, product.lits.environment.as_slice())
}

/// Makes STEP's formula of a set from its beginning.
pub(crate) fn complete_step(
    alloc: Global,
    product: &Product,
    set: &CandidateSet,
    formula: &mut Cnf,
) -> Result<(), AllocError>
    requires order { IsProductInOrder (product_view product.now).lits }
    requires begun { formula.old ≡ gates_formula product.now.circuit (length product.now.circuit.gates) }
    ensures { OnOk result (formula.new ≡ step_formula (product_view product.now).lits (members set.now)) }
{
    let after = member_lits(alloc, set, product.lits.after.as_slice())?;
    add_premises(alloc, product, set, formula)?;
    add_some_fails(alloc, formula, after.as_slice())
}

/// Makes GOAL's formula of a set from its beginning.
pub(crate) fn complete_goal(
    alloc: Global,
    product: &Product,
    set: &CandidateSet,
    formula: &mut Cnf,
) -> Result<(), AllocError>
    requires order { IsProductInOrder (product_view product.now).lits }
    requires begun { formula.old ≡ gates_formula product.now.circuit (length product.now.circuit.gates) }
    ensures { OnOk result (formula.new ≡ goal_formula (product_view product.now).lits (members set.now)) }
{
    add_premises(alloc, product, set, formula)?;
    add_some_fails(alloc, formula, product.lits.relates.as_slice())
}
