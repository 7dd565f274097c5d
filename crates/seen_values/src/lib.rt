// What cells were seen to hold on pairs that were tried, and which cells went together on all of them. Of all this nothing is
// asked but that it ends: what follows from it is proposed, and tested by others.
//
// - `seen`: the values that cells had on pairs;
// - `subject`: the cells of both programs, as far as proposals have to know them;
// - `signature`, `classes`: checksums of these values, and classes of cells with equal ones;
// - `facts`: what the forms of proposals look at, the cells, what they were seen to hold, and classes of equal cells;
// - `few`, `bits`: cells with few values, and BOOL cells as words of bits;
// - `relations`, `basis`, `field`: sums of cells with small factors that were the same on all pairs, by linear algebra modulo a prime.
#![tactic(auto)]

mod basis;
mod bits;
mod classes;
mod facts;
mod few;
mod field;
mod relations;
mod seen;
mod signature;
mod subject;

pub use bits::{Bits, bits_of};
pub use classes::Classes;
pub use facts::{Facts, facts_of, key_of};
pub use few::{few_values, indicator};
pub use relations::{Affine, affine_relations};
pub use seen::Seen;
pub use signature::{Signature, mixed, mixed_value, signatures};
pub use subject::{Sort, Subject, number_of, subjects_of, type_of};
