// What programs and pairs of them mean, scan by scan: definitions over plain data, and their laws.
#![tactic(auto)]

mod laws;
mod relation;
mod side;
mod verdict;
mod verdict_laws;

pub use laws::ranges_are_kept;
pub use relation::{Candidate, Ending, InputLine, Relation};
pub use side::Side;
pub use verdict::Verdict;
pub use verdict_laws::{
    failing_is_not_kept, greatest_is_inductive, holding_in_range_is_inductive,
    no_break_where_related, one_verdict, related_for_ever,
};
