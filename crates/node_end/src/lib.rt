// From the bytes of a program's text to the nodes of its scan, or to the first rule that it breaks.
#![tactic(auto)]

mod accepting;
mod fault;

pub use accepting::{Accepted, accept};
pub use fault::AcceptFault;
