// What operators, conversions and standard functions make of values, wrapped to their type (IEC 61131-3, 3.3.1 and 2.5.1.5).
#![tactic(auto)]

mod functions;
mod operators;
mod wrapping;

pub use functions::{call_of_one, call_of_three, joined};
pub use operators::{apply, apply_unary, divides_by_zero};
pub use wrapping::wrap_value;
