// Queries as cases spell them: `FIRST`; `STEP` or `GOAL` and the numbers of candidates, from 1; `DEEP` or `WALK` and a number of scans.
ghost use Rattle.std.specs.Prelude.{◌≡◌};
ghost use Rattle.scan_model.specs.Pairs.{relation_view};
ghost use Rattle.queries.specs.Questions.{query_view, IsQueryOf};
ghost use Rattle.comparison_files.specs.MadeCircuits.{comparison_of};

use case_files::{CaseFault, malformed, numbers_of};
use cdcl_watch::Watched;
use clause_core::{Decided, Decider};
use comparison_files::Circuits;
use plc_types::Value;
use program_printing::print_formula;
use queries::{CandidateSet, Queries, Query};
use scan_model::Relation;
use std::alloc::Global;

// How many clauses may be derived where a query is decided.
const LIMIT: u32 = 100_000;

/// What is wanted of a query: the clauses of its formula, or whether it has a solution.
#[derive(Clone, Copy)]
pub(crate) enum Wanted {
    Clauses,
    Decision,
}

/// The answer to a query that is spelled so.
pub(crate) fn answer_to(
    alloc: Global,
    circuits: &Circuits<'_>,
    relation: &Relation,
    wanted: Wanted,
    decider: &mut Watched,
    words: &str,
) -> Result<String, CaseFault>
    requires { (comparison_of circuits.now).relation ≡ relation_view relation.now }
{
    let (word, rest) = words.split_once(' ').unwrap_or((words, ""));
    let numbers = numbers_of(alloc, rest)?;
    match word {
        "FIRST" => answer(alloc, circuits, wanted, decider, &Query::First),
        "STEP" => {
            let set = set_of(alloc, relation.candidates.len(), &numbers)?;
            answer(alloc, circuits, wanted, decider, &Query::Step(&set))
        }
        "GOAL" => {
            let set = set_of(alloc, relation.candidates.len(), &numbers)?;
            answer(alloc, circuits, wanted, decider, &Query::Goal(&set))
        }
        "DEEP" => match depth_of(&numbers) {
            Some(scans) if scans >= 1 && scans <= relation.depth => {
                answer(alloc, circuits, wanted, decider, &Query::Deep(scans))
            }
            _ => Err(malformed(alloc, "this is no number of scans: ", rest)),
        },
        "WALK" => match depth_of(&numbers) {
            Some(rows) if rows >= 1 && rows <= relation.depth => {
                answer(alloc, circuits, wanted, decider, &Query::Walk(rows))
            }
            _ => Err(malformed(alloc, "this is no number of rows: ", rest)),
        },
        _ => Err(malformed(alloc, "this is no query: ", words)),
    }
}

fn depth_of(numbers: &[Value]) -> Option<u64> {
    match numbers {
        [scans] => u64::try_from(*scans).ok(),
        _ => None,
    }
}

// The set of the candidates with these numbers, from 1, of which there are so many.
fn set_of(alloc: Global, count: usize, numbers: &[Value]) -> Result<CandidateSet, CaseFault> {
    let mut set = CandidateSet::new(alloc);
    let mut number: Value = 1;
    for _ in 0..count {
        set.push(numbers.contains(&number))?;
        number = number.saturating_add(1);
    }
    for asked in numbers {
        if *asked < 1 || *asked >= number {
            return Err(malformed(alloc, "a candidate has no such number", ""));
        }
    }
    Ok(set)
}

fn answer(
    alloc: Global,
    circuits: &Circuits<'_>,
    wanted: Wanted,
    decider: &mut Watched,
    query: &Query<'_>,
) -> Result<String, CaseFault>
    requires { IsQueryOf (comparison_of circuits.now) (query_view query.now) }
{
    circuits.laws();
    let mut formula = circuits.query(alloc, query)?;
    let text = match wanted {
        Wanted::Clauses => print_formula(alloc, &formula)?,
        Wanted::Decision => {
            let decision = match decider.decide(alloc, &mut formula, LIMIT)? {
                Decided::Found(_) => "satisfiable",
                Decided::Refuted(_) => "unsatisfiable",
                Decided::Spent(_) => "not decided",
            };
            String::from_str(alloc, decision)?
        }
    };
    Ok(text)
}
