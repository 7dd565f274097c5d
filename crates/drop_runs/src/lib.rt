// Runs of a pair of programs, 256 side by side on the circuit of one scan, that propose rows which may drop candidates. What is
// proposed is tested by others.
// - `drawing`: numbers drawn for all lanes at once, bit by bit
// - `free`: the words of the free bits
// - `guessing`: the rows that are proposed, each of which may drop a candidate
// - `near`: pairs near another
// - `runs`: the runs of all lanes, from a pair on, a scan at a time
// - `scans`: one scan in all lanes
// - `spelling`: the numbers that words of free bits spell
// - `starting`: the start of both programs
#![tactic(auto)]

mod drawing;
mod free;
mod guessing;
mod near;
mod runs;
mod scans;
mod spelling;
mod starting;

pub use runs::{Runs, are_run};
pub use spelling::spelled;
pub use starting::start_bits;
