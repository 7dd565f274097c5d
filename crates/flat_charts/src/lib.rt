// The tests of charts, as expressions over the cells and scratch cells of a flat program: of latches, of actions and of transitions.
#![tactic(auto)]

mod chart_tests;
mod joins;
mod places;
mod scope;

pub use chart_tests::{exited_flag, latch_test, own_cell, ready_test, runs_test};
pub use joins::{chain, joined, negated, without};
pub use places::{cell_at, place_at};
pub use scope::{FlatScope, Owner};
