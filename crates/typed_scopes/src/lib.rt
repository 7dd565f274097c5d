// When the names of a scope fit the places that a body is typed over; and so the expressions and statements that break no rule are typed.
#![tactic(auto)]

mod laws;

pub use laws::{law_charts, law_expressions, law_leaving, law_statements};
