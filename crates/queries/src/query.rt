use crate::set::CandidateSet;

/// A query. The numbers of a set are those of the relation's candidates.
#[derive(Clone, Copy)]
pub enum Query<'s> {
    /// For a first row that is allowed.
    First,
    /// For a pair in range that meets the set, and an allowed row after which one of the set fails.
    Step(&'s CandidateSet),
    /// For a pair in range that meets the set, and an allowed row after which the pair is not related.
    Goal(&'s CandidateSet),
    /// For a break after that many scans.
    Deep(u64),
    /// For so many rows that are allowed, one after the other from the start.
    Walk(u64),
}
