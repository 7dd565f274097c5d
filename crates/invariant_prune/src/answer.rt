use clause_core::Log;
use queries::Decoded;

/// What comes of a query.
#[derive(Drop)]
pub enum Answer {
    /// What it asks for.
    Found(Decoded),
    /// There is none: a derivation of the empty clause from its formula.
    Refuted(Log),
    /// As many derived clauses as are allowed, and no answer.
    Spent(Log),
}
