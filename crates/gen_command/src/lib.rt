// The command `gen`: revisions of a program made from a number, saved, and verified.
#![tactic(auto)]

mod command;
mod line;
mod made;
mod saved;

pub use command::answer_gen;
pub use verify_command::answer_verify;
