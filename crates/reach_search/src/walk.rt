// What is found.
use clause_core::Log;
use queries::Row;

/// What comes behind an allowed list of rows.
#[derive(Drop)]
pub enum End {
    /// There are DEPTH rows.
    Full,
    /// There is no list of one row more: a derivation of the empty clause from the formula of its query.
    Refuted(Log),
    /// As many derived clauses as are allowed, and no answer to that query.
    Spent(Log),
}

/// An allowed list of rows from the start, and what comes behind it.
#[derive(Drop)]
pub struct Walk {
    pub rows: Vec<Row>,
    pub end: End,
}
