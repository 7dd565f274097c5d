// The law of the flat form: a scan of it leaves the cells that the program's scan leaves.
#![tactic(auto)]

mod laws;

pub use laws::flat_form_keeps_meaning;
