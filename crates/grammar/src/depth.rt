// How deep expressions and statements nest.

/// How deep parentheses and statements nest, together.
pub const DEPTH: usize = 64;
