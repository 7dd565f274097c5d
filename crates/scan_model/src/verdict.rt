// What is said of two programs under a relation.

/// A verdict, with the numbers of its line.
#[derive(Clone, Copy)]
pub enum Verdict {
    /// No first row is allowed.
    Vacuous,
    /// The pair stays related for ever: how many candidates are kept, and of how many.
    Related(u32, u32),
    /// The least number of scans after which the pair is not related.
    Different(u32),
    /// None of these: how many candidates are kept, of how many, and how many scans from the start were searched.
    Open(u32, u32, u32),
}
