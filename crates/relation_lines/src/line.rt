// The lines of a relation file as trees, which print its tokens. A number beside a part is the place of the
// part's first token, in bytes from 0.
use scan_model::Side;
use source_tree::{Expr, Name};

/// A line that has a number: `RELATION n;`, `DEPTH n;` or `CONFLICTS n;`.
#[derive(Clone, Copy)]
pub enum Setting {
    /// The version of the file's form.
    Version,
    /// How many scans from the start are searched.
    Depth,
    /// How many derivations each query may take.
    Conflicts,
}

/// What the clause of a line says: which inputs may come (`ENV`), what holds after a scan
/// (`RELATE`), or what may help to show that it does (`INVARIANT`).
#[derive(Clone, Copy)]
pub enum Condition {
    Environment,
    Relate,
    Invariant,
}

/// What a line says behind its first word.
#[derive(Drop)]
pub enum Content {
    /// A number and its place.
    Setting(Setting, u64, usize),
    /// `FAULTS EQUAL;` (true) or `FAULTS FREE;`, and the place of the second word.
    Faults(bool, usize),
    /// `INPUT a = b;`: a name of OLD, the place of `=`, and a name of NEW.
    Paired(Name, usize, Name),
    /// `INPUT OLD a;` or `INPUT NEW a;`, and the place of the second word.
    Single(Side, usize, Name),
    /// `ENV e;`, `RELATE e;` or `INVARIANT e;`.
    Clause(Condition, Expr),
}

/// A line, and the place of its first word.
#[derive(Drop)]
pub struct Line {
    pub at: usize,
    pub content: Content,
}
