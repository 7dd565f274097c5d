// Runs of a circuit near one run of it, 256 side by side, which compute only what differs from that one. Of what they find nothing is
// owed: others test it.
// - `base_run`: one run of a circuit
// - `changes`: the words that free bits are to have
// - `events`: which gates are to be run
// - `lists`: lists of numbers, one for each key
// - `requirements`: which literals a run has to meet, and which bits are to be equal for it
// - `runs`: the runs
// - `words`: the words of the variables
#![tactic(auto)]

mod base_run;
mod changes;
mod events;
mod lists;
mod requirements;
mod runs;
mod words;

pub use lists::Lists;
pub use runs::NearRuns;
