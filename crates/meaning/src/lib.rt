// What programs mean: the value of an expression in a state, whether its evaluation meets a fault, and what statements, calls and charts
// do to a state.
#![tactic(auto)]

mod laws;

pub use laws::{lists_do_what_their_parts_do, transitions_fire_in_turn};
