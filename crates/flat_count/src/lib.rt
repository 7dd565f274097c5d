// How many statements the flat form of a program has, counted without building it.
#![tactic(auto)]

mod count;
mod count_calls;
mod count_charts;
mod counts;
mod leaves;
mod short;
mod sums;

pub use leaves::{Leaves, leaving, leaving_all};
pub use short::is_short;
