ghost use Rattle.std.specs.Prelude.{◌≡◌, ℕ, ◌<◌, ◌≤◌, ◌+◌, ◌∷◌, [], length, map, slice_range, IsTrue, OnOk};
ghost use Rattle.clause_core.specs.Clauses.{is_inside, set_of};
ghost use Rattle.clause_core.specs.Formula.{with_clause, BeginsWith};
ghost use Rattle.gates.specs.Clauses.{gate_clauses, clauses_of, clauses_from, with_clauses};
ghost use Rattle.gates.specs.Order.{IsOrdered, gate_below};

use crate::circuit::Circuit;
use crate::literals::plain;
use clause_core::{Cnf, Gate, Lit};
use std::alloc::AllocError;

impl Circuit {
    /// Adds the clauses of the gates at the places from `from` up to `to` to a formula. After an error it has some of them.
    pub fn add_clauses(&self, from: usize, to: usize, formula: &mut Cnf) -> Result<(), AllocError>
        requires order { from ≤ to }
        requires inside { to ≤ length self.now.gates }
        requires ordered { IsOrdered self.now }
        requires variables { self.now.first + to ≤ formula.old.variables + 1 }
        ensures ok { OnOk result (formula.new ≡ with_clauses formula.old (clauses_from (self.now.first + from) (slice_range self.now.gates from to))) }
        ensures begins { BeginsWith formula.old formula.new }
    {
        formula.variables();
        let first = self.first();
        for place in from..to {
            add_gate(first + place as u32, self.gate(place), formula)?;
        }
        Ok(())
    }
}

// Adds the clauses of the gate that is that variable.
fn add_gate(variable: u32, gate: Gate, formula: &mut Cnf) -> Result<(), AllocError>
    requires below { IsTrue (gate_below variable gate) }
    requires one { 0 < variable }
    requires within { variable ≤ formula.old.variables }
    ensures ok { OnOk result (formula.new ≡ with_clauses formula.old (gate_clauses variable gate)) }
    ensures begins { BeginsWith formula.old formula.new }
{
    let g = plain(variable);
    match gate {
        Gate::And(a, b) => add_and(g, a, b, formula),
        Gate::Xor(a, b) => add_xor(g, a, b, formula),
        Gate::Mux(c, a, b) => add_mux(g, c, a, b, formula),
    }
}

fn add_and(g: Lit, a: Lit, b: Lit, formula: &mut Cnf) -> Result<(), AllocError>
    requires g { IsTrue (is_inside formula.old.variables g) }
    requires a { IsTrue (is_inside formula.old.variables a) }
    requires b { IsTrue (is_inside formula.old.variables b) }
    ensures ok { OnOk result (formula.new ≡ with_clauses formula.old (map set_of (clauses_of g (Gate.And a b)))) }
    ensures begins { BeginsWith formula.old formula.new }
{
    add_two(g.negated(), a, formula)?;
    add_two(g.negated(), b, formula)?;
    add_three(g, a.negated(), b.negated(), formula)
}

fn add_xor(g: Lit, a: Lit, b: Lit, formula: &mut Cnf) -> Result<(), AllocError>
    requires g { IsTrue (is_inside formula.old.variables g) }
    requires a { IsTrue (is_inside formula.old.variables a) }
    requires b { IsTrue (is_inside formula.old.variables b) }
    ensures ok { OnOk result (formula.new ≡ with_clauses formula.old (map set_of (clauses_of g (Gate.Xor a b)))) }
    ensures begins { BeginsWith formula.old formula.new }
{
    add_three(g.negated(), a, b, formula)?;
    add_three(g.negated(), a.negated(), b.negated(), formula)?;
    add_three(g, a.negated(), b, formula)?;
    add_three(g, a, b.negated(), formula)
}

fn add_mux(g: Lit, c: Lit, a: Lit, b: Lit, formula: &mut Cnf) -> Result<(), AllocError>
    requires g { IsTrue (is_inside formula.old.variables g) }
    requires c { IsTrue (is_inside formula.old.variables c) }
    requires a { IsTrue (is_inside formula.old.variables a) }
    requires b { IsTrue (is_inside formula.old.variables b) }
    ensures ok { OnOk result (formula.new ≡ with_clauses formula.old (map set_of (clauses_of g (Gate.Mux c a b)))) }
    ensures begins { BeginsWith formula.old formula.new }
{
    add_three(c.negated(), a.negated(), g, formula)?;
    add_three(c.negated(), a, g.negated(), formula)?;
    add_three(c, b.negated(), g, formula)?;
    add_three(c, b, g.negated(), formula)
}

fn add_two(a: Lit, b: Lit, formula: &mut Cnf) -> Result<(), AllocError>
    requires a { IsTrue (is_inside formula.old.variables a) }
    requires b { IsTrue (is_inside formula.old.variables b) }
    ensures ok { OnOk result (formula.new ≡ with_clause formula.old (set_of (a ∷ b ∷ []))) }
    ensures begins { BeginsWith formula.old formula.new }
{
    formula.push(&[a, b])
}

fn add_three(a: Lit, b: Lit, c: Lit, formula: &mut Cnf) -> Result<(), AllocError>
    requires a { IsTrue (is_inside formula.old.variables a) }
    requires b { IsTrue (is_inside formula.old.variables b) }
    requires c { IsTrue (is_inside formula.old.variables c) }
    ensures ok { OnOk result (formula.new ≡ with_clause formula.old (set_of (a ∷ b ∷ c ∷ []))) }
    ensures begins { BeginsWith formula.old formula.new }
{
    formula.push(&[a, b, c])
}
