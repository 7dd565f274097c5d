// From the texts of OLD, NEW and REL to what is compared, and to the circuits of its queries, or to what is said where they are refused.
#![tactic(auto)]

mod accept;
mod circuits;
mod compared;
mod fault;
mod refusal;

pub use accept::{Scans, StatedTexts, accept_texts};
pub use circuits::circuits_of;
pub use command_files::{KeptTexts, read_texts};
pub use compared::Compared;
pub use fault::CompareFault;
pub use product_build::Circuits;
pub use refusal::put_fault;
