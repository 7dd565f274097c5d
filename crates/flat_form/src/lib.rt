// The flat form of programs as definitions, what its laws say, and which blocks do nothing.
#![tactic(auto)]

mod frames;
mod idle;

pub use frames::{range_at, range_of, type_at};
pub use idle::{idle_blocks, is_idle_block};
