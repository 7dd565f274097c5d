// The search for a verdict, which writes its evidence as it goes: each answer is in the finding before the next is asked for.
// - numbers: rows, literals and hints as numbers of lines
// - writing: one line
// - logs, scans, walks: the lines of a log, those of a break, and those of an allowed list of rows
// - conclusions: the numbers that a verdict is written with
// - guesses: the test of a row that is proposed
// - dropping, deepening: the rows that drop candidates, and the depths that are searched
// - saving: the whole
#![tactic(auto)]

mod conclusions;
mod deepening;
mod dropping;
mod guesses;
mod logs;
mod numbers;
mod saving;
mod scans;
mod walks;
mod writing;

pub use saving::save_finding;
