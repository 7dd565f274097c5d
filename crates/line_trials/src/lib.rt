// INVARIANT lines behind the text of a relation: the text is read back, and tried on runs of both programs.
//
// - `line`, `texts`, `reading`: the lines, the text with them behind it, and that text read back;
// - `trial`, `held`, `failing`: which lines hold on all runs;
// - `plan`, `random`, `rows`, `runs`: runs of both programs on allowed rows that are drawn from a seed.
#![tactic(auto)]

mod failing;
mod held;
mod line;
mod plan;
mod random;
mod reached;
mod reading;
mod rows;
mod runs;
mod texts;
mod trial;

pub use line::InvariantLine;
pub use plan::{Effort, Plan};
pub use reading::read_given;
pub use runs::try_runs;
pub use trial::{Trial, try_lines};
