// The rules on names: what a file and a POU declare, what a name stands for, and which rules are broken.
// - `callee`: what a call in an expression calls
// - `chart_words`: the words of a chart's associations
// - `entry`: entries of the table of a file's names
// - `library`: names that each file's scope has from the start
// - `pou_shape`: what is known of a POU by its number
// - `role`: what the names of a POU are for
// - `shape`: what a type is
// - `slot`: entries of the table of a POU's names
// - `standing`: what the names of a file stand for
// - `variable`: a name of a POU, with what its declaration says of it
#![tactic(auto)]

mod callee;
mod chart_words;
mod entry;
mod library;
mod pou_shape;
mod role;
mod shape;
mod slot;
mod standing;
mod variable;

pub use callee::{Callee, append_called, append_number};
pub use chart_words::{is_storing, qualifier, qualifier_of, word_of};
pub use entry::Entry;
pub use library::{is_library, standard_function};
pub use pou_shape::PouShape;
pub use role::Role;
pub use shape::Shape;
pub use slot::{Slot, number_by};
pub use standing::{
    Standing, is_that_value, is_type, is_value, is_value_of, pou_number, type_number,
};
pub use variable::Declared;
