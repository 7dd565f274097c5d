// No two cells of a PROGRAM have one path, so that a clause means by a path the cell that the PROGRAM's statements mean by it.
#![tactic(auto)]

mod laws;

pub use laws::{law_clause_names, law_fault, law_found_cells, law_paths_once};
