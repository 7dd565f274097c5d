// The command `verify`: the verdict on two programs and a relation, with the finding that shows it.
#![tactic(auto)]

mod command;
mod finding;
mod laws;

pub use command::answer_verify;
pub use comparison_files::{
    Compared, KeptTexts, Scans, StatedTexts, accept_texts, circuits_of, put_fault,
};
pub use finding::answer_finding;
pub use laws::{one_limit, one_refusal};
