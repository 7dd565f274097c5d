// 256 runs of a circuit side by side: bit j of the word of a variable is its value in run j.
//
// - `lanes`: words of 256 lanes, and the word of a literal;
// - `lane_sets`: words as sets of runs;
// - `random_lanes`: numbers drawn for all runs;
// - `free_bits`: the words of the free bits of a run;
// - `run_plan`: runs in few words, by a plan that is made once;
// - `choice`, `step`: a gate as a choice between two literals, and the step that writes its word;
// - `uses`, `layout`: how long each variable is read, and where its word is put.
#![tactic(auto)]

mod choice;
mod free_bits;
mod lane_sets;
mod lanes;
mod layout;
mod random_lanes;
mod run_plan;
mod step;
mod uses;

pub use lane_sets::{
    LANE_COUNT, all_lanes, first_lane, is_empty, lanes_if, lanes_of, no_lane, one_lane,
};
pub use lanes::{choose_word, is_set, literal_word};
pub use random_lanes::Random;
pub use run_plan::RunPlan;
