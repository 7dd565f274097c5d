// The test of fresh clauses, made when it is first asked, so that a log of which no clause is to be fresh has none.

ghost use Rattle.std.specs.Prelude.{◌≡◌, None, IsTrue, IfSome, length};
ghost use Rattle.clause_core.specs.Clauses.{rises};
ghost use Rattle.clause_core.specs.Formula.{Formula, with_clause};
ghost use Rattle.clause_core.specs.Freshness.{IsFresh};
ghost use Rattle.clause_core.specs.Steps.{VariablesBelow};
ghost use Rattle.derivation_check.specs.Tests.{IsTestOf};

use crate::deletion::Cover;
use crate::fresh_test::{propagator_over, shows_fresh};
use crate::implication_graph::ImplicationGraph;
use clause_core::{Cnf, Lit};
use std::alloc::Global;
use watched_propagation::{ClauseRef, Propagator, low};

/// Formulas of this many variables or more have no test.
const MOST_VARIABLES: u32 = 0x8000_0000;

// Looks no more at those clauses of hints of which the last clause is a part.
fn let_hints_go(propagator: &mut Propagator, hints: &[u32])
    ensures { propagator.new ≡ propagator.old }
{
    let last = propagator.last();
    for number in hints {
        propagator.let_go(ClauseRef { number: *number }, last);
    }
}

/// Takes in a clause that is held behind the others, and that its hints led to. Where memory is wanting there is no test any more.
pub(crate) fn add(test: &mut Option<Propagator>, literals: &[Lit], hints: &[u32])
    requires { IfSome test.old (λ p. VariablesBelow (length p.values) literals.now) }
    ensures { (f : Formula) → IsTestOf f test.old → IsTestOf (with_clause f literals.now) test.new }
{
    match test.take() {
        None => {}
        Some(mut propagator) => {
            if let Ok(_) = propagator.add_given(literals) {
                let_hints_go(&mut propagator, hints);
                *test = Some(propagator);
            }
        }
    }
}

// Looks no more at the clause of a number, where the place of one that is a part of it is known.
fn look_away(propagator: &mut Propagator, number: usize, cover: Cover)
    ensures { propagator.new ≡ propagator.old }
{
    if let Cover::At(place) = cover {
        let clause = ClauseRef {
            number: low(number),
        };
        propagator.let_go(clause, ClauseRef::at(low(place)));
    }
}

/// Looks no more at a clause that is held no more, and lets the test go where too much that it holds is so; one that stays is as right as before.
pub(crate) fn let_go(test: &mut Option<Propagator>, number: usize, cover: Cover, is_stale: bool)
    ensures { (f : Formula) → IsTestOf f test.old → IsTestOf f test.new }
{
    match test.take() {
        None => {}
        Some(mut propagator) => {
            if !is_stale {
                look_away(&mut propagator, number, cover);
                *test = Some(propagator);
            }
        }
    }
}

// Takes the test out, or makes it where there is memory.
fn take_or_make(alloc: Global, test: &mut Option<Propagator>, cnf: &Cnf) -> Option<Propagator>
    requires { IsTestOf cnf.now test.old }
    ensures made { IsTestOf cnf.now result }
    ensures left { test.new ≡ None }
{
    match test.take() {
        Some(propagator) => Some(propagator),
        None => {
            if cnf.variables() >= MOST_VARIABLES {
                return None;
            }
            match propagator_over(alloc, cnf) {
                Ok(propagator) => Some(propagator),
                Err(_) => None,
            }
        }
    }
}

/// Whether it is shown that a clause is fresh over what is held. Its hints say which literal is tried first.
pub(crate) fn shows(
    alloc: Global,
    test: &mut Option<Propagator>,
    graph: &mut ImplicationGraph,
    cnf: &Cnf,
    literals: &[Lit],
    hints: &[u32],
) -> bool
    requires literals { IsTrue (rises cnf.now.variables literals.now) }
    requires test { IsTestOf cnf.now test.old }
    ensures fresh { IsTrue result → IsFresh cnf.now.clauses literals.now }
    ensures test { IsTestOf cnf.now test.new }
{
    let Some(mut propagator) = take_or_make(alloc, test, cnf) else {
        return false;
    };
    let guess = graph.asserting_place(cnf, literals, hints);
    match shows_fresh(&mut propagator, literals, guess) {
        Err(_) => false,
        Ok(is_shown) => {
            *test = Some(propagator);
            is_shown
        }
    }
}
