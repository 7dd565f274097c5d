// A judge of findings: it takes one line at a time, and says of the whole what the definition of judging says.
// - stage: where the lines so far lead to
// - versions: which lines the version of a finding has a form for
// - numbers: the numbers of a D line as a step, and those of an X line
// - rows, logs: the tests of rows, and those of the steps of logs
// - conclusions: verdicts with the numbers of a set, and compared
// - places: which lines may stand at each place
// - judging, file: the whole, by its reader and by the name of its file
#![tactic(auto)]

mod conclusions;
mod file;
mod judging;
mod logs;
mod numbers;
mod places;
mod rows;
mod stage;
mod versions;

pub use file::{FindingFile, judge_file};
pub use judgement::{JudgeErr, Judged, Reach, Reason};
pub use judging::{MOST_LINES, judge};
pub use places::split_at_most;
