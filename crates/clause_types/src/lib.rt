// The types of the clauses of a relation file, whose names are cells of two programs.
#![tactic(auto)]

mod clauses;
mod enumeration_values;
mod pair;
mod paired_types;
mod path_hashes;
mod sides;

pub use clauses::{judge_clause, typed_clause};
pub use pair::PairScope;
pub use paired_types::PairedTypes;
