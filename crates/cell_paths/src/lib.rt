// The cells of a PROGRAM by their paths: the cell at the place of a name has the name's path, type and range.
#![tactic(auto)]

mod laws;

pub use laws::{law_named_cells, law_paths};
