// The literals that are true in a search, in the order in which they became so, with levels that can be taken back.
#![tactic(auto)]

mod code;
mod table;
mod trail;

pub use code::{ClauseRef, Code, negated};
pub use table::{low, read, write};
pub use trail::{Cause, Trail};
