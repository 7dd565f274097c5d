// The reader of declarations, types, charts and POUs: each call reads what the grammar says at its place.
#![tactic(auto)]

mod charts;
mod declaration;
mod pou;
mod step;
mod transition;
mod type_blocks;

pub use pou::pou_begun;
pub use type_blocks::types;
