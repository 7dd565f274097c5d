// The lines of a finding, each with one spelling: written, and read as they were written.
// - `digits`: numbers, read in one pass over their digits
// - `fields`: numbers behind their labels, queries and verdicts
// - `laws`: a line has one spelling, and is read back from it
// - `line`: the forms of a line
// - `numbers`: lists of numbers in their order
// - `read`: whole lines
// - `rows`: rows of numbers
// - `show`: lines as text
// - `words`: what stands in front of a line
#![tactic(auto)]

mod digits;
mod fields;
mod laws;
mod line;
mod numbers;
mod read;
mod rows;
mod show;
mod words;

pub use laws::{law_one_spelling, law_read_back};
pub use line::{Asked, Conclusion, Line, Version};
pub use numbers::Numbers;
pub use read::read_line;
pub use show::{show_conclusion, show_line};
