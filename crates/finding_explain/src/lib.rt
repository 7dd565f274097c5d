// A finding is judged, and where it is valid it is explained: its report is made from its lines.
#![tactic(auto)]

mod answers;
mod collect;
mod explain;
mod notes;

pub use answers::Explained;
pub use explain::explain_finding;
pub use finding_check::FindingFile;
