// The formula of each query means the query: it has a solution exactly where the query has an answer, and each solution stands for one.
#![tactic(auto)]

mod laws;

pub use laws::{law_candidates, law_decoded, law_means, law_order};
