// What a report takes from lines.
use finding_lines::Numbers;
use queries::CandidateSet;

/// The candidates that are left, the numbers of the PAIR line where there is one, and those of the SCAN lines.
#[derive(Drop)]
pub struct Notes {
    pub set: CandidateSet,
    pub pair: Option<Numbers>,
    pub scans: Vec<Numbers>,
}
