// The files that a command reads whole, and the programs and the relation that their texts state.
#![tactic(auto)]

mod accept;
mod files;
mod refusal;
mod texts;

pub use accept::{program_in, relation_in};
pub use files::read_text;
pub use front_end::{accept_text, tokens_of};
pub use refusal::{AcceptError, fault_of, refused};
pub use texts::{KeptTexts, read_texts};
