// The candidates that two programs by themselves have, whatever is asked of them: clauses that may hold after every scan, each with its
// printed name; and the cells of the two programs by their paths.
#![tactic(auto)]

mod exclusive;
mod initial_values;
mod pair;
mod places;
mod same;

pub use exclusive::add_exclusive_of;
pub use initial_values::add_initial_values_of;
pub use pair::Pair;
pub use places::PairProgram;
pub use same::add_same_of;
