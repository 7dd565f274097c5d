// Laws of nodes: a well-typed flat program's nodes mean its scans, and are typed, so that a circuit can stand for each of them.
#![tactic(auto)]

mod laws;

pub use laws::{nodes_are_typed, nodes_have_meaning, nodes_take_values};
