// What the operations on words mean: in every model of the circuit, the word that an operation made is the operation's result on whole numbers.
#![tactic(auto)]

mod bits;
mod choices;
mod comparisons;
mod divisions;
mod sums;

pub use bits::{
    law_any, law_bitwise, law_constant, law_not, law_resize, law_rotations, law_shifts,
};
pub use choices::{law_abs, law_choose, law_max, law_min};
pub use comparisons::{law_compare, law_is_zero, law_outside};
pub use divisions::law_division;
pub use sums::{law_add, law_mul, law_neg, law_sub};
