// What begins a statement.

/// The word that begins a statement which holds others; of FOR with its place in the text.
#[derive(Clone, Copy)]
pub enum Opener {
    If,
    Case,
    For(usize),
}
