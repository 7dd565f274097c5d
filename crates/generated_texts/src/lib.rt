// The three texts of the generator and the names of its files, by the number of inputs that each of its programs has, and how they are saved.
#![tactic(auto)]

mod lines;
mod names;
mod saving;
mod texts;

pub use names::{FileNames, file_names};
pub use saving::save_texts;
pub use texts::{GeneratedTexts, generate};
