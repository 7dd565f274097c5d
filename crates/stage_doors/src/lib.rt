// Doors for what stands between a text and a verdict.
//
// - `flat`, `gate_lists`: the flat list of a program's text, its nodes and its gates;
// - `scan`, `flat_run`, `node_run`: the state behind a scan, by the interpreter, by the flat form and by its nodes;
// - `pair`, `asked`: the clauses of the formula of a query, and whether it has a solution;
// - `formula`, `dimacs`, `decided`, `checked`: formulas and derivations, before the deciders and before the checker;
// - `suggest`: how the program that suggests lines ends.
#![tactic(auto)]

mod asked;
mod checked;
mod decided;
mod dimacs;
mod flat;
mod flat_run;
mod formula;
mod gate_lists;
mod node_run;
mod pair;
mod scan;
mod suggest;

pub use decided::{Answer, Way, decide, right_entries};
pub use dimacs::read_formula;
pub use flat::run_flat;
pub use formula::run_formula;
pub use pair::run_query;
pub use scan::run_scan;
pub use suggest::run_suggest;
