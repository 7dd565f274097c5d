// The command `replay`: both programs run on the rows of a trace, with a line for each scan.
#![tactic(auto)]

mod accept;
mod answer;
mod command;
mod laws;
mod play;
mod show;

pub use command::answer_replay;
pub use laws::one_report;
