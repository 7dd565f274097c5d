// Where the lines so far lead to.
use derivation_check::Checker;
use finding_lines::{Asked, Conclusion};
use judgement::{Reach, Reason};
use queries::CandidateSet;

/// Where a log leads to that ends with its empty clause.
#[derive(Drop)]
pub(crate) enum Behind {
    Drops(Reach, CandidateSet),
    Kept(Reach, CandidateSet),
    Deep(Reach, CandidateSet, u64),
    End(Reach, Conclusion),
}

/// What a log that is to spend its query asks: a query, or, behind so many allowed rows, for a list of one more.
#[derive(Clone, Copy)]
pub(crate) enum Spending {
    Query(Reach, Asked),
    Walk(u64),
}

/// Where the lines so far lead to. Most say what was said of reach.
#[derive(Drop)]
pub(crate) enum Stage {
    /// Before the header.
    Top,
    /// Behind it.
    Header(Reach),
    /// Behind a first row and so many rows of an allowed list. The pair behind them is that on trial.
    Walks(u64),
    /// In a log that is to spend the query for a list of one row more than so many, so many steps to come.
    InWalk(u64, Checker, u64),
    /// Behind a first row and rows that drop candidates.
    Drops(Reach, CandidateSet),
    /// Behind the log that shows the set inductive.
    Kept(Reach, CandidateSet),
    /// Behind a row that leads out of the relation, and so many logs that show that there is no break.
    Deep(Reach, CandidateSet, u64),
    /// In a break of so many scans, as many to come behind the next. The pair so far is that on trial.
    Scans(Reach, u64, u64),
    /// Before the END line.
    End(Reach, Conclusion),
    /// Behind it.
    Finished(Reach, Conclusion),
    /// In a log that is to refute its query.
    InLog(Checker, Behind),
    /// In a log that is to spend its query, so many steps to come.
    InQuery(Reach, Asked, Checker, u64),
}

/// What comes of a line.
#[derive(Drop)]
pub(crate) enum Moved {
    Goes(Stage),
    Fails(Reason),
}
