// Where a file breaks no rule, each judgement of it is whole: what breaks nothing and is not whole would leave that to a declaration that breaks a rule.
#![tactic(auto)]

mod laws;

pub use laws::{law_all_ordered, law_chart_names, law_used_blocks, law_whole};
