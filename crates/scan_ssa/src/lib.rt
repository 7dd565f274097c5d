// One scan of a flat program, and a clause of a relation, in single assignment: exactly the nodes that their definitions list.
// - `scans`: a scan
// - `clauses`: a clause
// - `statements`: flat statements, one behind the other
// - `merging`: the end of an IF
// - `assigning`: assignments and conditions
// - `words`: expressions
// - `functions`: standard functions
// - `making`: nodes, one behind the other, up to a limit
// - `nodes`: what is made
// - `trail`: which words places hold, and what was changed
// - `held`: where words are read
// - `places`: what places take
// - `fault`: why there are no nodes
#![tactic(auto)]

mod assigning;
mod clauses;
mod fault;
mod functions;
mod held;
mod making;
mod merging;
mod nodes;
mod places;
mod scans;
mod statements;
mod trail;
mod words;

pub use clauses::clause_nodes;
pub use fault::NodeFault;
pub use scans::to_nodes;
