// What the uses of names in the body of a POU break, the numbers of these uses, and the FUNCTIONs that it calls.
#![tactic(auto)]

mod associations;
mod body;
mod chart;
mod scope;
mod step_lists;
mod walk;

pub use body::walk_body;
pub use scope::Scope;
