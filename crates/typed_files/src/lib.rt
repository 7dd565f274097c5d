// The program of a file that breaks no rule is typed: what its text owes circuits is found by the rules on names and types alone.
#![tactic(auto)]

mod laws;

pub use laws::{law_typed, law_uses};
