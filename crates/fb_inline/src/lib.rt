// Flat forms of typed programs, whose scans leave the cells that the programs' scans leave.
// - `calls`: expressions, with the statements that their calls become
// - `chart_lists`: the flat statements of a chart that its steps and latches alone become
// - `charts`: charts as flat statements
// - `frames`: the cells of calls, as scratch cells
// - `labels`: tests of the labels of a CASE
// - `leaving`: EXIT and RETURN, and what stands behind statements that may leave
// - `program`: the flat form of a program
// - `puts`: one more flat statement, arm or scratch cell
// - `statements`: statements as flat statements
#![tactic(auto)]

mod calls;
mod chart_lists;
mod charts;
mod frames;
mod labels;
mod leaving;
mod program;
mod puts;
mod statements;

pub use program::flatten;
