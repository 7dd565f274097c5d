// From the bytes of three texts to what a verdict on them says of scans: laws that join what texts state to the model.
// - `answers`: what the commands' answers say of the rows that may come
// - `findings`: what a finding on texts that is judged valid shows
// - `rows`: what each verdict says of lists of allowed rows
// - `texts`: what is known of a comparison that texts state
#![tactic(auto)]

mod answers;
mod findings;
mod rows;
mod texts;

pub use answers::{law_explained, law_saved, law_valid};
pub use findings::{law_conclusion, law_finding, law_listed, law_reach, law_shown, law_spent};
pub use rows::{
    law_different, law_kept_for_ever, law_one_verdict, law_open, law_related_for_ever, law_vacuous,
};
pub use texts::{law_accepted, law_comparison, law_means};
