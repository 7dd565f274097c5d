// What the program that suggests makes of three texts: the third with INVARIANT lines behind it, and a note on it.
#![tactic(auto)]

mod accepted;
mod endings;
mod leaving;
mod wording;
mod words;

pub use accepted::{keep_for, suggest_for};
pub use endings::{Ending, ending_of, ending_without};
pub use suggestion::{Effort, Suggestion};
pub use words::{Asked, read_words};
