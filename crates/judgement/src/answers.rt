// What a judge of findings answers.
use finding_lines::Conclusion;
use std::alloc::AllocError;
use thiserror::Error;

/// The test that a line fails.
#[derive(Clone, Copy)]
pub enum Reason {
    /// It is none of the forms.
    B1,
    /// It has the wrong count of numbers, or a number that is out of range.
    B2,
    /// Its row is not allowed.
    B3,
    /// Its pair does not meet the set.
    B4,
    /// Nothing fails after its scan.
    B5,
    /// Its step is not accepted.
    B6,
    /// It stands in a log that has no empty clause, and is no step.
    B7,
    /// Its pair is related after the scan, or a row of a break but the last leads to one that is not.
    B8,
    /// It cannot stand here.
    B9,
    /// A spent log has a step that is empty, not fresh or one too many, or ends too early.
    B10,
    /// It is the END line of another verdict.
    B11,
    /// It stands behind the END line.
    B12,
    /// The file ends before its line feed.
    B13,
    /// A clause that is to be held no more is no held derived clause, or no other held clause is a part of it.
    B14,
}

/// What a finding says of how many rows are allowed, one after the other from the start.
#[derive(Clone, Copy, PartialEq, Eq)]
pub enum Reach {
    /// Nothing: the finding is of version 1.
    Untold,
    /// Nothing so far: the finding is of version 2, and no row of the list has been read.
    Unwalked,
    /// So many, and no more up to DEPTH.
    Greatest(u64),
    /// So many at least; the query for one more is spent.
    AtLeast(u64),
}

/// A verdict, and what its finding says of reach.
#[derive(Clone, Copy)]
pub struct Concluded {
    pub verdict: Conclusion,
    pub reach: Reach,
}

/// What is said of a finding.
#[derive(Clone, Copy)]
pub enum Judged {
    /// Every line passes; the verdict is that of the END line.
    Valid(Conclusion, Reach),
    /// The first line that fails, from 1, and the first test that it fails.
    Bad { line: u64, reason: Reason },
}

/// Why nothing is said.
#[derive(Clone, Copy, Debug, Error)]
pub enum JudgeErr {
    /// The file failed.
    #[error("the finding cannot be read")]
    Fault,
    /// There was no memory left.
    #[error("out of memory")]
    Memory,
    /// A line that follows lines which all pass holds the first byte past the limit.
    #[error("the finding is too long")]
    M8,
}

impl From<AllocError> for JudgeErr {
    ghost use Rattle.std.specs.Prelude.{◌≡◌};
    ghost use Rattle.judgement.specs.declared.answers.JudgeErr.TheVariants.{Memory};

    ghost from_gives = { λ _ e. e ≡ Memory };

    fn from(_: AllocError) -> Self {
        JudgeErr::Memory
    }
}
