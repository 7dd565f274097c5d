// From the bytes of a program's text to its flat form, or to the first rule that it breaks.
#![tactic(auto)]

mod flat;

pub use flat::{Accepted, accept_flat};
