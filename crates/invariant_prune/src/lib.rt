// The queries that a verdict rests on, each decided within a limit: an answer to it, or the log that the decider leaves; and who
// guesses answers that need no decider.
#![tactic(auto)]

mod answer;
mod asking;
mod guesses;

pub use answer::Answer;
pub use asking::{first, goal, next_drop, search_at, walk_at};
pub use guesses::{Guesses, NoGuesses};
