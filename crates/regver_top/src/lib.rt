// The regression verifier's top call: what it puts on the sink and with which status it ends.
#![tactic(auto)]

mod top;

pub use command_answers::Status;
pub use gen_command::{answer_gen, answer_verify};
pub use top::regver;
