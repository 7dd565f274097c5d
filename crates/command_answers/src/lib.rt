// What the commands answer: how a run ends, and the lines that they share, on the sink.
#![tactic(auto)]

mod answer;
mod put;
mod source;
mod status;

pub use answer::{put_last, put_limit, put_refusal, put_report};
pub use put::put_text;
pub use source::Source;
pub use status::Status;
