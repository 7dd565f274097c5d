// A search made into a decider: what it proposes is tested, and replaced where a test fails.

ghost use Rattle.std.specs.Prelude.{◌≡◌, ◌<◌, ◌≤◌, ◌+◌, ◌-◌, ◌^◌, ◌++◌, ◌∷◌, [], length, List, IsTrue, IfOk, OnOk};
ghost use Rattle.std.specs.List.{list_all};
ghost use Rattle.clause_core.specs.Clauses.{is_within, rises};
ghost use Rattle.clause_core.specs.Decisions.{IsDecided};
ghost use Rattle.clause_core.specs.Formula.{with_clause, BeginsWith};
ghost use Rattle.clause_core.specs.declared.log.Entry.TheVariants.{Derived};
ghost use Rattle.clause_core.specs.declared.literal.Lit.{Lit};
ghost use Rattle.cdcl_core.specs.Next.{IsNext};

use crate::acceptance::{is_solution, may_take};
use crate::letting_go::let_covered_go;
use crate::next::{Next, next_step};
use crate::search::{Proposal, Search};
use clause_core::{Assignment, Clause, Cnf, Decided, Log, Step, Truth, unassigned};
use std::alloc::{AllocError, Global};

/// The next step: the one proposed where it passes the tests, else the one that is always there.
fn next_tested<S: Search>(
    alloc: Global,
    variables: u32,
    held: &[Clause],
    values: &mut [Truth],
    search: &mut S,
    refused: &mut u64,
) -> Result<Next, AllocError>
    requires held { IsTrue (list_all (is_within variables) held.now) }
    requires size { length values.old ≡ variables + 1 }
    requires few { length held.now < 2 ^ 32 - 1 }
    requires small { variables < 2 ^ 32 - 1 }
    requires taken { (taken more : List (List Lit)) × S.has_taken search.old taken × (held.now ≡ taken ++ more) }
    requires places { S.places search.old ≡ variables + 1 }
    ensures next { IfOk result (IsNext variables held.now values.new) }
    ensures taken { OnOk result (S.has_taken search.new held.now) }
    ensures places { S.places search.new ≡ S.places search.old }
{
    match search.propose(held)? {
        Proposal::Solution => {
            if is_solution(variables, held, values, search.values()) {
                return Ok(Next::Found);
            }
        }
        Proposal::Derivation(step) => {
            let is_closed = search.is_closed(held);
            if may_take(variables, held, values, search.values(), is_closed, &step) {
                search.learn()?;
                return Ok(Next::Derived(step));
            }
        }
    }
    *refused = refused.saturating_add(1);
    search.restart()?;
    next_step(alloc, variables, held, values)
}

// Holds the clause of a step behind the others, and keeps the step.
fn hold(cnf: &mut Cnf, log: &mut Log, step: Step) -> Result<(), AllocError>
    requires { IsTrue (rises cnf.old.variables step.clause) }
    ensures held { OnOk result (cnf.new ≡ with_clause cnf.old step.clause) }
    ensures kept { OnOk result (log.new ≡ log.old ++ Derived step ∷ []) }
    ensures begins { BeginsWith cnf.old cnf.new }
{
    cnf.push_rising(step.clause.literals())?;
    log.push(step)
}

// Decides the formula, and leaves the clauses that it learned behind those of the formula.
fn decide_behind<S: Search>(
    alloc: Global,
    search: &mut S,
    cnf: &mut Cnf,
    limit: u32,
    refused: &mut u64,
) -> Result<Decided, AllocError>
    requires limit { 1 ≤ limit }
    requires few { length cnf.old.clauses + limit < 2 ^ 32 }
    requires taken { S.has_taken search.old [] }
    requires places { S.places search.old ≡ cnf.old.variables + 1 }
    ensures decided { IfOk result (IsDecided cnf.old limit) }
    ensures begins { BeginsWith cnf.old cnf.new }
{
    let variables = cnf.variables();
    let given = cnf.clauses().len();
    let mut values = unassigned(alloc, variables)?;
    let mut log = Log::new(alloc);
    for _turn in 0..limit {
        match next_tested(
            alloc,
            variables,
            cnf.clauses(),
            values.as_mut_slice(),
            search,
            refused,
        )? {
            Next::Found => {
                return Ok(Decided::Found(Assignment::from_values(values)));
            }
            Next::Derived(step) => {
                if step.clause.literals().is_empty() {
                    log.push(step)?;
                    return Ok(Decided::Refuted(log));
                }
                let count = cnf.clauses().len();
                hold(cnf, &mut log, step)?;
                let_covered_go(search, cnf, &mut log, given, count)?;
            }
        }
    }
    Ok(Decided::Spent(log))
}

/// Decides the formula by at most `limit` steps, most of which the search finds. It counts on
/// `refused` the proposals of the search that fail the tests. What it learns stands behind the clauses
/// of the formula until it ends.
pub fn decide_by<S: Search>(
    alloc: Global,
    search: &mut S,
    cnf: &mut Cnf,
    limit: u32,
    refused: &mut u64,
) -> Result<Decided, AllocError>
    requires limit { 1 ≤ limit }
    requires few { length cnf.old.clauses + limit < 2 ^ 32 }
    requires taken { S.has_taken search.old [] }
    requires places { S.places search.old ≡ cnf.old.variables + 1 }
    ensures decided { IfOk result (IsDecided cnf.old limit) }
    ensures same { cnf.new ≡ cnf.old }
{
    let given = cnf.clauses().len();
    let decided = decide_behind(alloc, search, cnf, limit, refused);
    cnf.truncate(given);
    decided
}
