// What it is to read a text: readers on lists of symbols, and which rule on nesting and words is broken first.
#![tactic(auto)]

mod depth;
mod fault;
mod open;
mod opener;

pub use depth::DEPTH;
pub use fault::Stop;
pub use open::{MOST_OPEN, Open};
pub use opener::Opener;
