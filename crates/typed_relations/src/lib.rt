// Two programs and a relation that were read from texts are typed as their circuits ask for: what that needs is found by the rules on names and types
// alone.
#![tactic(auto)]

mod laws;

pub use laws::law_typed_comparisons;
