// How a finding is judged, line by line, and what a finding that is judged valid shows.
#![tactic(auto)]

mod answers;
mod laws;

pub use answers::{Concluded, JudgeErr, Judged, Reach, Reason};
pub use laws::law_sound;
