// From a source file to its POUs with every name bound, and an order in which each stands behind those that it uses; or to the
// first rule on names that the file breaks.
#![tactic(auto)]

mod circles;
mod judged;
mod resolution;

pub use file_bindings::Resolved;
pub use resolution::resolve;
