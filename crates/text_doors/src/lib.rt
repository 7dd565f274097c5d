// Doors for what texts state: whether the text of a program is accepted, and what the text of a relation states between two programs.
#![tactic(auto)]

mod accept;
mod along;
mod relation;

pub use accept::{accepted, run_accept};
pub use relation::run_relation;
