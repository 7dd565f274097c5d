// From a chart to its shape: what its names make of it, whatever its types are.
#![tactic(auto)]

mod associations;
mod firing;
mod numbers;
mod parts;
mod shape;

pub use shape::{Shape, shape_of};
