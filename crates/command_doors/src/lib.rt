// Doors for the commands, each put to the top call with its files and its output in memory.
//   replay, check, explain, verify, generated, words  the doors
// - `answers`: what a command answers to files: a status, and below it what is put
// - `check`: what the command check puts
// - `explain`: what the command explain puts
// - `failing`: calls that fail in turn
// - `files`: the files of a command, and what it makes of them
// - `generated`: what the command gen puts, and the texts that it saves
// - `judged`: findings that were saved: check judges them valid
// - `query_counts`: how many queries verify and gen have decided
// - `replay`: what the command replay puts
// - `verify`: what the command verify puts, and the finding that it saves
// - `words`: command lines, a line each with bars between the words
#![tactic(auto)]

mod answers;
mod check;
mod explain;
mod failing;
mod files;
mod generated;
mod judged;
mod query_counts;
mod replay;
mod verify;
mod words;

pub use check::run_check;
pub use explain::run_explain;
pub use generated::run_gen;
pub use replay::run_replay;
pub use verify::run_verify;
pub use words::run_words;
