// Case files: titled cases with sections, marks in their texts, and what is compared.
// - `case_file`: titled cases, each of which has sections
// - `counts`: how many cases there are
// - `marks`: texts with marks, which stand between « and »
// - `report`: what a case finds: where something else came than was expected, or why it cannot be run
// - `section`: the words that begin a section of a case file
// - `states`: the states before and behind a scan that a case states, and what is compared with them
// - `texts`: the texts of a case, each from its section or from that of its file's head
#![tactic(auto)]

mod case_file;
mod counts;
mod marks;
mod report;
mod section;
mod states;
mod texts;

pub use case_file::{Case, CaseFile, Section, read_case_file};
pub use counts::Counts;
pub use marks::{Marked, Place};
pub use report::{
    CaseFault, Mismatch, compare, compare_bytes, compare_words, in_one_line, malformed, refused_at,
};
pub use section::{Door, Word};
pub use states::{StatePair, compare_states, state_pairs};
pub use texts::{
    expected_of, expected_text_of, find_section, new_program_of, numbers_of, program_of,
    section_of, text_of, without_places,
};
