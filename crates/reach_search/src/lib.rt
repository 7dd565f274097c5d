// How many rows are allowed, one after the other from the start: a list of so many, and what shows that there is none of one row more.
// The interpreter tries rows that are guessed; only where it allows none of them a query is asked.
//
// - `walk`: what is found;
// - `drawing`: rows that are guessed;
// - `trying`: rows that are tried and run;
// - `reaching`: the whole.
#![tactic(auto)]

mod drawing;
mod reaching;
mod trying;
mod walk;

pub use reaching::reach;
pub use walk::{End, Walk};
