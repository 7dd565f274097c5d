// A file whose names are bound: what each POU declares, what each use of a name means, and in which order the POUs stand.
#![tactic(auto)]

mod bound;

pub use bound::{Bindings, Resolved};
