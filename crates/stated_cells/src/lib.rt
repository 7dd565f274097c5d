// What clauses rest on in the PROGRAM of a file that breaks no rule: what is known of its cells, its enumerations and the steps of its charts.
#![tactic(auto)]

mod laws;

pub use laws::law_stated_cells;
