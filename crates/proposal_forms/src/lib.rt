// Clauses that held on all pairs that were tried, each form by itself. They are proposed, and tested by others.
// - `bounds`: bounds of integer cells, widened to numbers that stand in the texts
// - `comparisons`: BOOL cells that are TRUE where a number is great enough, and numbers that stay close to one another
// - `equal`: equal cells, and opposite ones
// - `exclusive`: BOOL cells of one program of which not both are TRUE
// - `flags`: BOOL cells that are TRUE exactly where another cell has a value
// - `junctions`: BOOL cells that are AND, OR or AND NOT of two of the other program
// - `proposal`: what may be proposed
// - `scaled`: integer cells that go some times as far as one of the other program
// - `shapes`: integer cells that follow one of the other program up to a bound, or its remainder or quotient
// - `sums`: sums of integer cells, also of two types, and counts of BOOL cells
// - `words`: bits of words
#![tactic(auto)]

mod bounds;
mod comparisons;
mod equal;
mod exclusive;
mod flags;
mod junctions;
mod proposal;
mod scaled;
mod shapes;
mod sums;
mod words;

pub use bounds::{add_bounds, add_bounds_beside};
pub use comparisons::{add_apart, add_reaches};
pub use equal::{add_equal, add_last_own, add_opposite};
pub use exclusive::add_exclusive;
pub use flags::add_flags;
pub use junctions::add_junctions;
pub use proposal::{GuardedLine, HeldValue, Junction, Proposal, Shape};
pub use scaled::add_scaled;
pub use shapes::add_shapes;
pub use sums::{
    add_counts, add_sums, add_sums_of_two, add_sums_of_types, can_be_written, is_number,
};
pub use words::add_bits;
