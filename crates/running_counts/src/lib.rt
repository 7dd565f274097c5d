// A program is short by the count of its flat statements, and the program that a file states is as short as its whole typed program.
#![tactic(auto)]

mod laws;

pub use laws::law_short;
