// Lines.

/// An INVARIANT line: its clause, the text of a comment behind it, and whether it stands in the text as a line, or in a comment.
#[derive(Drop)]
pub struct InvariantLine {
    pub clause: String,
    pub note: String,
    pub is_kept: bool,
}
