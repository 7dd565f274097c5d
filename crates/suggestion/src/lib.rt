// INVARIANT lines for the text of a relation, each of which held on all pairs of runs of both programs that were tried.
//
// - `making`: the lines that are suggested;
// - `proposing`, `standing`, `dropping`: what is proposed, what stands in the relation already, and what is left out;
// - `stated_line`, `sums`, `cells`, `counts`: the lines that state proposals;
// - `leaving`, `unkept`: scans that leave lines, which then stand in comments;
// - `edges`, `spelling`, `wording`: the numbers that the texts name, and how they write the names that they declare.
#![tactic(auto)]

mod cells;
mod counts;
mod dropping;
mod edges;
mod leaving;
mod making;
mod proposing;
mod spelling;
mod standing;
mod stated_line;
mod sums;
mod unkept;
mod wording;

pub use edges::numbers_of;
pub use leaving::Leaving;
pub use line_trials::Effort;
pub use making::{Suggestion, suggest, without_left};
pub use spelling::Spelling;
pub use wording::Wording;
