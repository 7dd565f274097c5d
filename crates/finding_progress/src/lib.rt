// How much of a finding has been saved, counted by the first word of each of its lines.
#![tactic(auto)]

mod saved;

pub use saved::Saved;
