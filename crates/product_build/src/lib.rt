// The circuits of two programs under a relation, and the formula of each query that is asked of them.
#![tactic(auto)]

mod asking;
mod circuits;
mod one_scan;
mod scans;

pub use circuits::{Circuits, product};
pub use scans::{break_formula, first_formula, walk_formula};
