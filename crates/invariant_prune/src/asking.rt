// One query each.
ghost use Rattle.std.specs.Prelude.{◌≡◌, ◌≤◌, ◌<◌, ◌+◌, ◌^◌, length, IfOk};
ghost use Rattle.clause_core.specs.Decisions.{IsDecided};
ghost use Rattle.queries.specs.Questions.{query_view, IsQueryOf, IsOfOneScan};
ghost use Rattle.queries.specs.Questions as questions;
ghost use Rattle.queries.specs.Sets.{members};
ghost use Rattle.invariant_prune.specs.Answers.{IsAnswer};
ghost use Rattle.invariant_prune.specs.Kept.{IsKept};

use crate::answer::Answer;
use crate::guesses::Guesses;
use cdcl_watch::{Guide, decide_guided};
use clause_core::{Cnf, Decided, Decider};
use queries::{CandidateSet, Queries, Query};
use std::alloc::{AllocError, Global};

// Decides a formula, by the clauses of a guide first where there is one.
fn decide_formula<D: Decider>(
    alloc: Global,
    decider: &mut D,
    cnf: &mut Cnf,
    limit: u32,
    guide: Option<Guide>,
) -> Result<Decided, AllocError>
    requires limit { 1 ≤ limit }
    requires few { length cnf.old.clauses + limit < 2 ^ 32 }
    ensures decided { IfOk result (IsDecided cnf.old limit) }
    ensures same { cnf.new ≡ cnf.old }
{
    match guide {
        Some(guide) => decide_guided(alloc, cnf, limit, &guide),
        None => decider.decide(alloc, cnf, limit),
    }
}

// Decides a query by its formula.
fn decide<D: Decider, Q: Queries>(
    alloc: Global,
    decider: &mut D,
    queries: &Q,
    query: &Query,
    cnf: &mut Cnf,
    limit: u32,
    guide: Option<Guide>,
) -> Result<Answer, AllocError>
    requires query { IsQueryOf (Q.compared queries.now) (query_view query.now) }
    requires formula { cnf.old ≡ Q.formula queries.now (query_view query.now) }
    requires some { 1 ≤ limit }
    requires most { limit ≤ 1000000 }
    ensures answer { IfOk result (IsAnswer (Q.compared queries.now) (Q.formula queries.now) limit (query_view query.now)) }
    ensures same { cnf.new ≡ cnf.old }
{
    queries.laws();
    match decide_formula(alloc, decider, cnf, limit, guide)? {
        Decided::Found(found) => {
            let decoded = queries.decode(alloc, query, &found)?;
            Ok(Answer::Found(decoded))
        }
        Decided::Refuted(log) => Ok(Answer::Refuted(log)),
        Decided::Spent(log) => Ok(Answer::Spent(log)),
    }
}

// Any query, by a formula of its own.
fn ask<D: Decider, Q: Queries>(
    alloc: Global,
    decider: &mut D,
    queries: &Q,
    query: &Query,
    limit: u32,
) -> Result<Answer, AllocError>
    requires query { IsQueryOf (Q.compared queries.now) (query_view query.now) }
    requires some { 1 ≤ limit }
    requires most { limit ≤ 1000000 }
    ensures { IfOk result (IsAnswer (Q.compared queries.now) (Q.formula queries.now) limit (query_view query.now)) }
{
    let mut cnf = queries.query(alloc, query)?;
    decide(alloc, decider, queries, query, &mut cnf, limit, None)
}

// What is kept, or where nothing is, what formulas begin with, made anew.
fn begun<Q: Queries>(alloc: Global, queries: &Q, kept: &mut Option<Cnf>) -> Result<Cnf, AllocError>
    requires { IsKept (Q.front queries.now) kept.old }
    ensures front { IfOk result (λ front. front ≡ Q.front queries.now) }
    ensures kept { kept.new ≡ None }
{
    match kept.take() {
        Some(front) => Ok(front),
        None => queries.begin(alloc),
    }
}

// A query for one scan from any pair. What its formula begins with is kept for the next such query.
fn ask_kept<D: Decider, Q: Queries>(
    alloc: Global,
    decider: &mut D,
    queries: &Q,
    kept: &mut Option<Cnf>,
    query: &Query,
    limit: u32,
    guide: Option<Guide>,
) -> Result<Answer, AllocError>
    requires query { IsOfOneScan (query_view query.now) }
    requires kept { IsKept (Q.front queries.now) kept.old }
    requires some { 1 ≤ limit }
    requires most { limit ≤ 1000000 }
    ensures answer { IfOk result (IsAnswer (Q.compared queries.now) (Q.formula queries.now) limit (query_view query.now)) }
    ensures kept { IsKept (Q.front queries.now) kept.new }
{
    queries.laws();
    let mut cnf = begun(alloc, queries, kept)?;
    let count = cnf.clauses().len();
    queries.complete(alloc, query, &mut cnf)?;
    let answer = decide(alloc, decider, queries, query, &mut cnf, limit, guide)?;
    cnf.truncate(count);
    *kept = Some(cnf);
    Ok(answer)
}

/// A first row that is allowed; or none is; or the query is spent.
pub fn first<D: Decider, Q: Queries>(
    alloc: Global,
    decider: &mut D,
    queries: &Q,
    limit: u32,
) -> Result<Answer, AllocError>
    requires some { 1 ≤ limit }
    requires most { limit ≤ 1000000 }
    ensures { IfOk result (IsAnswer (Q.compared queries.now) (Q.formula queries.now) limit questions.first) }
{
    ask(alloc, decider, queries, &Query::First, limit)
}

/// A pair in range that meets the set, with an allowed row after which one of the set fails; or no row leads out of the set;
/// or the query is spent. What formulas begin with is taken from what is kept, and kept again.
pub fn next_drop<D: Decider, Q: Queries, G: Guesses>(
    alloc: Global,
    decider: &mut D,
    queries: &Q,
    kept: &mut Option<Cnf>,
    guesses: &mut G,
    set: &CandidateSet,
    limit: u32,
) -> Result<Answer, AllocError>
    requires kept { IsKept (Q.front queries.now) kept.old }
    requires some { 1 ≤ limit }
    requires most { limit ≤ 1000000 }
    ensures answer { IfOk result (IsAnswer (Q.compared queries.now) (Q.formula queries.now) limit (questions.step (members set.now))) }
    ensures kept { IsKept (Q.front queries.now) kept.new }
{
    let guide = guesses.step_guide(alloc, set)?;
    ask_kept(
        alloc,
        decider,
        queries,
        kept,
        &Query::Step(set),
        limit,
        guide,
    )
}

/// A pair in range that meets the set, with an allowed row after which it is not related; or none leads there; or the query is
/// spent. What formulas begin with is taken from what is kept, and kept again.
pub fn goal<D: Decider, Q: Queries, G: Guesses>(
    alloc: Global,
    decider: &mut D,
    queries: &Q,
    kept: &mut Option<Cnf>,
    guesses: &mut G,
    set: &CandidateSet,
    limit: u32,
) -> Result<Answer, AllocError>
    requires kept { IsKept (Q.front queries.now) kept.old }
    requires some { 1 ≤ limit }
    requires most { limit ≤ 1000000 }
    ensures answer { IfOk result (IsAnswer (Q.compared queries.now) (Q.formula queries.now) limit (questions.goal (members set.now))) }
    ensures kept { IsKept (Q.front queries.now) kept.new }
{
    let guide = guesses.goal_guide(alloc, set)?;
    ask_kept(
        alloc,
        decider,
        queries,
        kept,
        &Query::Goal(set),
        limit,
        guide,
    )
}

/// A break of so many scans; or there is none; or the query is spent.
pub fn search_at<D: Decider, Q: Queries>(
    alloc: Global,
    decider: &mut D,
    queries: &Q,
    scans: u64,
    limit: u32,
) -> Result<Answer, AllocError>
    requires scans { IsQueryOf (Q.compared queries.now) (questions.deep scans) }
    requires some { 1 ≤ limit }
    requires most { limit ≤ 1000000 }
    ensures { IfOk result (IsAnswer (Q.compared queries.now) (Q.formula queries.now) limit (questions.deep scans)) }
{
    ask(alloc, decider, queries, &Query::Deep(scans), limit)
}

/// So many rows that are allowed, one after the other from the start; or there are none; or the query is spent.
pub fn walk_at<D: Decider, Q: Queries>(
    alloc: Global,
    decider: &mut D,
    queries: &Q,
    rows: u64,
    limit: u32,
) -> Result<Answer, AllocError>
    requires rows { IsQueryOf (Q.compared queries.now) (questions.walk rows) }
    requires some { 1 ≤ limit }
    requires most { limit ≤ 1000000 }
    ensures { IfOk result (IsAnswer (Q.compared queries.now) (Q.formula queries.now) limit (questions.walk rows)) }
{
    ask(alloc, decider, queries, &Query::Walk(rows), limit)
}
