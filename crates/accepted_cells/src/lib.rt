// The cells of the program that a text states: each stands at the place of its name, has the name's path, type and range, and is the one that its path finds.
#![tactic(auto)]

mod laws;

pub use laws::{
    law_assignments, law_cells_of_names, law_few_cells, law_names_in_clauses, law_no_points,
    law_paths_once, law_same_cells,
};
