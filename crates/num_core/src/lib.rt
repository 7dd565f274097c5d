// Whole numbers under an integer type: wrapping to a width, ranges, and division that truncates.
#![tactic(auto)]

mod division;
mod int_type;
mod wrapping;

pub use division::{quot, rem};
pub use int_type::IntType;
pub use wrapping::{fits, mul, wrap};
