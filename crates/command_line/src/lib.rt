// From the words of the command line to the command that they ask for, by clap's rules, and which words are numbers.
#![tactic(auto)]

mod count;
mod grammar;
mod read;

pub use read::read_words;

/// The words that name four files: two programs, a relation, and a trace or a finding.
#[derive(Drop)]
pub struct FourWords {
    pub old: String,
    pub new: String,
    pub relation: String,
    pub last: String,
}

/// A command that the words of the command line may ask for.
#[derive(Drop)]
pub enum Command {
    /// Judges a finding, the last of the files.
    Check(FourWords),
    /// Judges a finding, the last of the files, and reports on it.
    Explain(FourWords),
    /// Makes revisions of a size that is asked for by this word, and verifies them.
    Gen(String),
    /// Runs the rows of a trace, the last of the files, on both programs.
    Replay(FourWords),
    /// Decides the programs and the relation, and saves the finding, the last of the files.
    Verify(FourWords),
}

pub use count::count_of;
