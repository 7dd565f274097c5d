// Which of a program's POUs may run: those that the PROGRAM uses, and those that a POU uses that may run. The others need no cells of their own.
#![tactic(auto)]

mod running;
mod uses;

pub use running::{is_marked, mark};
pub use uses::uses_of;
