// From the bytes of a program's text to the typed program that it states, or to the first rule that it breaks.
#![tactic(auto)]

mod accept;
mod laws;
mod prelude;

pub use accept::{accept_text, checked_of, file_of, names_of, program_of, tokens_of};
pub use laws::one_acceptance;
