// What shows a verdict on two programs: laws that lead from evidence to each verdict of the model.
#![tactic(auto)]

mod breaks;
mod reaches;
mod sets;
mod verdicts;

pub use breaks::no_break_below;
pub use reaches::{law_unwalked_is_reach, law_whole_is_reach};
pub use sets::{
    covering_inductive_set_is_greatest, greatest_sets_have_one_size, set_left_after_a_row_covers,
    set_that_is_not_left_is_inductive, start_covers,
};
pub use verdicts::{
    different_is_shown, greatest_set_left_is_not_proved, greatest_set_not_left_is_proved,
    open_is_shown, related_is_shown, vacuous_is_shown,
};
