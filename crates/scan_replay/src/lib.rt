// Machines that run programs scan by scan: their states are those of the model.
// - `cells`: cells and their ranges
// - `duo`: two programs that run under a relation, scan by scan
// - `machine`: a machine that runs a program scan by scan
// - `pair`: a pair of states under a relation
// - `run`: one scan
// - `states`: states and rows
// - `two_states`: the states of two programs
#![tactic(auto)]

mod cells;
mod duo;
mod machine;
mod pair;
mod run;
mod states;
mod two_states;

pub use duo::Duo;
pub use machine::Machine;
pub use scan_model::Side;
