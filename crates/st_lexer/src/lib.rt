// From the bytes of a text to exactly the tokens that it spells, or to the first rule of its words, numbers and comments that it breaks.
// - `broken_rules`: the rules of what stands at the front of a text
// - `classes`: classes of bytes, and how far they go on
// - `front`: what stands at the front of a text
// - `lexer`: from the bytes of a text to its tokens
// - `numbers`: the values of numbers
// - `terminals`: what tokens are for the grammar
// - `words`: words by their first letter, in upper case, and what they are for the grammar
#![tactic(auto)]

mod broken_rules;
mod classes;
mod front;
mod lexer;
mod numbers;
mod terminals;
mod words;

pub use lexer::{lex, one_cut, one_spelling};
