// The greatest inductive set of candidates, searched candidate by candidate: rows that lead out of a set, and the clauses by which it
// is shown that none does. What is proposed is tested by others.
// - `asking`: whether a literal holds behind every row of a set
// - `candidate_search`: the search candidate by candidate, and what it does next
// - `facts`: what holds before a scan
// - `guessing`: rows and clauses for those who test them
// - `guides`: the clauses that the end of the search rests on
// - `inductive_search`: first runs from the start, then the search
// - `joining`: rows that are joined into one
// - `order`: the order in which candidates are asked
// - `passes`: one question for each candidate
// - `queue`: rows that are proposed one by one
// - `settling`: a new pass from the set that is left
// - `taking`: rows that are kept from the runs behind a question
#![tactic(auto)]

mod asking;
mod candidate_search;
mod facts;
mod guessing;
mod guides;
mod inductive_search;
mod joining;
mod order;
mod passes;
mod queue;
mod settling;
mod taking;

pub use inductive_search::InductiveSearch;
