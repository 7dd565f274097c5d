// Pairs and rows on trial: the tests of a pair of programs under a relation that a judge of evidence, or a search for it, needs.
#![tactic(auto)]

mod ranges;
mod sets;
mod trial;

pub use ranges::range_of_line;
pub use sets::{first_set, keep, meets};
pub use trial::Trial;
