// Laws of fresh clauses: what they are not, and what deletions leave as it is.
#![tactic(auto)]

mod laws;

pub use laws::{
    law_accepted_over_all, law_fresh_over_all, law_no_held_part, law_nothing_fresh_where_refuted,
};
