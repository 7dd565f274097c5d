// A typed program is fit to be flattened, and its flat form is typed.
#![tactic(auto)]

mod laws;

pub use laws::{law_typed_flat, law_well_typed};
