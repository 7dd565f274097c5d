// Nodes as words of a circuit: each node in turn makes the word and the gates that its operation names, from the words before it.
#![tactic(auto)]

mod node_rows;
mod nodes;
mod operands;
mod operators;
mod rows;

pub use nodes::encode;
