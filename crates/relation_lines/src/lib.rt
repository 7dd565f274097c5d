// From the tokens of a relation file to exactly the lines that print them.
#![tactic(auto)]

mod content;
mod line;
mod parse;
mod word;

pub use line::{Condition, Content, Line, Setting};
pub use parse::{has_ended, one_list, parse_lines, read_line};
pub use st_reader::refuse;
