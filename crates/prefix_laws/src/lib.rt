// Laws of what is left of a finding where its writing ends early: judging says that it is valid, that the end of a line is missing where it
// ends, or that it is too long.
#![tactic(auto)]

mod laws;

pub use laws::{
    law_long_part_is_too_long, law_part_is_valid_or_cut_off, law_part_with_end_is_valid,
    law_valid_has_end,
};
