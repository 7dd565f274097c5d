// The program that a file states does what its whole typed program does: nothing is lost with the cells of the FUNCTIONs that never run.
#![tactic(auto)]

mod laws;

pub use laws::{law_replays, law_rows, law_scans, law_verdicts};
