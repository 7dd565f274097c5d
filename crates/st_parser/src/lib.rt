// From tokens to the tree that prints them, or to the first rule on words, nesting and grammar that they break.
#![tactic(auto)]

mod file;

pub use file::{one_file, parse_file};
