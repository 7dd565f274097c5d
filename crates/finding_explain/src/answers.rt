// What is said of a finding that is to be explained.
use judgement::Reason;

/// What is said of a finding.
#[derive(Drop)]
pub enum Explained {
    /// Every line passes; the report.
    Valid(String),
    /// The first line that fails, from 1, and the first test that it fails.
    Bad { line: u64, reason: Reason },
}
