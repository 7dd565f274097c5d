// What a solution of a formula of a pair stands for: the numbers that its words spell, each one of its cell's type.
#![tactic(auto)]

mod decoding;
mod numbers;
mod rows;
mod states;
mod widths;

pub use decoding::decode;
pub use widths::law_wide;
