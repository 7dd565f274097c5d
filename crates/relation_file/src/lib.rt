// From the tokens of a relation file to the relation that they state between two programs, or to the first rule that they break.
// - `broken`: what the lines of a relation file break
// - `gathered`: what the lines of a relation file state, gathered line by line
// - `inputs`: what INPUT lines break
// - `laws`: laws of relations
// - `line_pass`: the lines of a file, each gone through as soon as it is read
// - `listed`: the clauses of a relation file as candidates, before, between and behind those that the two programs have by themselves
// - `names`: the names of clauses
// - `ranks`: the ranks of lines
// - `read`: the relation that a file states
// - `relation`: the relation that lines state
// - `seen`: what is kept of the lines so far
// - `unless`: what constructs break
#![tactic(auto)]

mod broken;
mod gathered;
mod inputs;
mod laws;
mod line_pass;
mod listed;
mod names;
mod ranks;
mod read;
mod relation;
mod seen;
mod unless;

pub use laws::{one_relation, one_small_relation};
pub use read::{read_lines, read_relation};
