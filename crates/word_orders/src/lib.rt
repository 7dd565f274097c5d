// Operations on words leave each gate of a circuit behind its operands, keep its old gates in front, and give words of the circuit: so each circuit that they make has exactly one model for each setting of its free bits.
#![tactic(auto)]

mod operations;
mod words;

pub use operations::{law_bits, law_choices, law_comparisons, law_division, law_sums};
pub use words::{law_later, law_start, law_words};
