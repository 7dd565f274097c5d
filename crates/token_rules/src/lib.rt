// The first token that breaks a rule of its own: a word that is left out, or one that opens a 65th parenthesis, IF, CASE or FOR.
#![tactic(auto)]

mod nesting;

pub use nesting::{first_by_place, first_fault};
