// What is reported of a valid finding: its verdict, the candidates that it keeps, its rows and its break, as one JSON object.
// - `compared`: what is compared
// - `names`: the names of inputs
// - `notes`: what a report takes from lines
// - `numbers`: numbers at their names
// - `parts`: the parts of a report
// - `report`: a report as text
// - `verdict`: a verdict as text
#![tactic(auto)]

mod compared;
mod names;
mod notes;
mod numbers;
mod parts;
mod report;
mod verdict;

pub use compared::Compared;
pub use notes::Notes;
pub use report::report_text;
pub use verdict::verdict_text;
