// A checker of derivations: it takes a step exactly where it is accepted over what is held, and lets a derived clause go exactly where another that is held is a part of it.
#![tactic(auto)]

mod checker;
mod cover_index;
mod deletion;
mod fault;
mod fresh_test;
mod implication_graph;
mod lazy_test;

pub use checker::{Ack, Checker};
pub use fault::{DelFault, StepFault};
