// The flat form of programs: assignments and choices over cells and scratch cells, and what they mean.
#![tactic(auto)]

mod flat_program;
mod flat_tree;
mod laws;

pub use flat_program::Flat;
pub use flat_tree::{FlatArm, FlatStmt};
pub use laws::scratch_does_not_count;
