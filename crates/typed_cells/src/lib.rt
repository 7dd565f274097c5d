// The names of each POU of a file fit its cells, so that a program is typed whose bodies break no rule.
#![tactic(auto)]

mod laws;

pub use laws::{law_bodies, law_cells_at_names, law_chart_cells, law_programs, law_scope_fits};
