// The synthesized types of expressions, the types of operands, and what literals, operators and standard functions take.
#![tactic(auto)]

mod kinds;
mod literals;
mod names;
mod numbers;
mod operands;
mod parameters;

pub use kinds::{
    bool_type, has_bits, is_bool, is_unknown, kind_at, next_type, or_dint, place_of, port_type,
    synthesized, synthesized_of_arguments, takes, type_of,
};
pub use literals::{
    is_literal_of, is_number, literal_value, negated, place_of_literal, synthesized_of_literal,
};
pub use names::{Seen, look_up};
pub use numbers::{range, wrapped};
pub use operands::{ChainTypes, chain_types};
pub use parameters::{
    Parameter, expected_at, parameter_of, result_of, takes_count, takes_operands,
};
