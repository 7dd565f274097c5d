// What the words of nodes mean: in every model of the circuit each node's word has the node's value, it has the width of its type, and the circuit has exactly one model for each setting of its free bits.
#![tactic(auto)]

mod laws;

pub use laws::{law_order, law_starts, law_states, law_values, law_widths};
