// The nodes of a scan: one word after the other, each made once; what they mean, and which ones a flat program and a clause become.
#![tactic(auto)]

mod node;
mod scan;

pub use node::Node;
pub use scan::{ClauseNodes, Scan};
