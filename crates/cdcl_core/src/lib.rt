// A decider that learns clauses: it solves, refutes by a derivation, or derives as many clauses as allowed.
// - `acceptance`: the tests that a proposal passes before it is taken
// - `analysis`: what a conflict teaches: the clause of its first unique implication point, and what derives it
// - `decide`: a search made into a decider: what it proposes is tested, and replaced where a test fails
// - `letting_go`: clauses that are held no more, since another one is a part of them
// - `list_search`: the plain search of conflict-driven clause learning
// - `next`: the derivation that always goes on: it decides the variables in rising order, and learns the decisions
// - `noting`: unit propagation that notes the clauses which it uses
// - `order`: the order of decisions
// - `plain`: the plain decider
// - `search`: a search for the next step, of which little is asked
// - `table`: tables that are read and written at any place
// - `trail`: the literals that are true, in the order in which they became so
#![tactic(auto)]

mod acceptance;
mod analysis;
mod decide;
mod letting_go;
mod list_search;
mod next;
mod noting;
mod order;
mod plain;
mod search;
mod table;
mod trail;

pub use decide::decide_by;
pub use plain::Plain;
pub use search::{Covered, Proposal, Search};
