// The commands on a finding, `check` and `explain`: OLD, NEW and REL are read whole, and the finding is judged by what they state; where it is valid,
// `explain` puts its report.
//
// - `command`, `finding_command`: what both do with the four files, by what each does with its finding;
// - `check`, `checking`, `check_laws`: the command `check`, and the law that it has one answer;
// - `explain`, `explaining`, `show`, `explain_laws`: the command `explain`, what it puts, and the law that it has one answer.
#![tactic(auto)]

mod check;
mod check_laws;
mod checking;
mod command;
mod explain;
mod explain_laws;
mod explaining;
mod finding_command;
mod show;

pub use check::answer_check;
pub use check_laws::one_check_report;
pub use explain::answer_explain;
pub use explain_laws::one_explain_report;
