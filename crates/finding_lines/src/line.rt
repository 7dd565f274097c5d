// The forms of a line.
use crate::numbers::Numbers;
use plc_types::Value;

/// Which version a finding is of.
#[derive(Clone, Copy, PartialEq, Eq)]
pub enum Version {
    /// Without the lines of reach and of deletions.
    One,
    /// With them.
    Two,
}

/// Which query a line speaks of.
#[derive(Clone, Copy, PartialEq, Eq)]
pub enum Asked {
    /// For a first row that is allowed.
    First,
    /// For a step out of the set.
    Step,
    /// For a step out of the relation.
    Goal,
    /// For a break after that many scans.
    Deep(Value),
    /// For that many rows which are allowed, one after the other from the start.
    Walk(Value),
}

/// The verdict at a finding's end, with its numbers as they are written.
#[derive(Clone, Copy, PartialEq, Eq)]
pub enum Conclusion {
    /// No first row is allowed.
    Vacuous,
    /// Related for ever: how many candidates are kept, and of how many.
    Related(Value, Value),
    /// The least number of scans after which the pair is not related.
    Different(Value),
    /// How many candidates are kept, of how many, and how many scans were searched.
    Open(Value, Value, Value),
    /// A query took as many derivations as it may.
    Spent(Asked, Value),
}

/// A line of a finding.
#[derive(Drop)]
pub enum Line {
    /// The first line.
    Header(Version),
    /// The inputs of a row that is allowed at the start.
    Seen(Numbers),
    /// The inputs of the next row of an allowed list from the start.
    Walk(Numbers),
    /// The cells of OLD, those of NEW and the inputs of a scan that drops candidates.
    Dropping(Numbers),
    /// The same of a scan out of the relation.
    Pair(Numbers),
    /// The inputs of a scan from the start.
    Scan(Numbers),
    /// A log that refutes a query begins.
    Log(Asked),
    /// A log that spends a query begins.
    Query(Asked),
    /// A derived clause: its literals, a negative number for a negative one, and its hints.
    Derived(Numbers, Numbers),
    /// The numbers of derived clauses that are held no more, one after the other.
    Deleted(Numbers),
    /// The verdict.
    End(Conclusion),
}
