// The queries that are asked of two programs and their relation, what their formulas mean, and who gives them.
#![tactic(auto)]

mod asking;
mod decoded;
mod query;
mod row;
mod set;

pub use asking::Queries;
pub use decoded::Decoded;
pub use query::Query;
pub use row::Row;
pub use set::CandidateSet;
