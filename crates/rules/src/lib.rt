// Rules, refusals and faults, and what judging a construct by the rules tells.
//
// rule      the rules, and which of two refusals comes first
// fault     why a pass gives nothing
// outcome   whether a construct is whole, and the first rule that is broken in it
#![tactic(auto)]

mod fault;
mod outcome;
mod rule;

pub use fault::Fault;
pub use outcome::Outcome;
pub use rule::{Refusal, Rule};
