// The numbers that are kept of a file's uses of names, and the entries of tables that they lead to.
// - `entries`: the entries of tables by names, and by the numbers that are kept of them
// - `numbers`: the numbers of uses, by the places of the names in the text
#![tactic(auto)]

mod entries;
mod numbers;

pub use entries::{entry_at, entry_by, numbered, value_by};
pub use numbers::UseNumbers;
