// Laws of judging: one thing is said of a file, what is written line by line is judged as it was written, SPENT has its log, and a finding
// that is cut off is none.
#![tactic(auto)]

mod laws;

pub use laws::{
    law_one_judgement, law_prefix_is_cut_off, law_reach_spent_is_logged, law_spent_is_logged,
    law_written_is_valid,
};
