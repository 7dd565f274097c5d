// What stands at the front of a text.
ghost use Rattle.std.specs.Prelude.{◌≡◌, ◌<◌, ◌≤◌, ◌+◌, length, drop, IfSome};
ghost use Rattle.std.specs.List.{prefix_len};
ghost use Rattle.source_tree.specs.Bytes.{is_blank};
ghost use Rattle.st_lexer.specs.Fronts.{front_of, plain_front, size_of};

use crate::classes::{
    blank_len, byte_at, closed_len, is_blank, is_letter, is_sign, is_sign_pair, line_len,
    number_len, word_len,
};
use source_tree::TokenClass;

/// A gap or a token, with its size in bytes.
#[derive(Clone, Copy)]
pub enum Front {
    Gap(usize),
    Token(TokenClass, usize),
}

fn plain_front(b: u8, rest: &[u8]) -> Option<Front>
    ensures front { result ≡ plain_front b rest.now }
    ensures size { IfSome result (λ f. (0 < size_of f) × (size_of f ≤ length rest.now + 1)) }
{
    if is_blank(b) {
        Some(Front::Gap(1))
    } else if is_letter(b) {
        Some(Front::Token(TokenClass::Word, word_len(rest) + 1))
    } else if b.is_ascii_digit() {
        Some(Front::Token(TokenClass::Number, number_len(rest) + 1))
    } else if is_sign_pair(b, byte_at(rest, 0)) {
        Some(Front::Token(TokenClass::Sign, 2))
    } else if is_sign(b) {
        Some(Front::Token(TokenClass::Sign, 1))
    } else {
        None
    }
}

/// The longest gap or token at the front of a text.
pub fn front_of(text: &[u8]) -> Option<Front>
    ensures front { result ≡ front_of text.now }
    ensures size { IfSome result (λ f. (0 < size_of f) × (size_of f ≤ length text.now)) }
{
    let (first, rest) = text.split_first()?;
    let next = byte_at(rest, 0);
    if *first == b'(' && next == b'*' {
        Some(Front::Gap(closed_len(&rest[1..])? + 2))
    } else if *first == b'/' && next == b'/' {
        Some(Front::Gap(line_len(rest) + 1))
    } else {
        plain_front(*first, rest)
    }
}

/// How many bytes a gap of a size at the front of a text takes, with the blanks behind it.
pub fn gap_len(text: &[u8], size: usize) -> usize
    requires { size ≤ length text.now }
    ensures len { result ≡ size + prefix_len is_blank (drop size text.now) }
    ensures within { result ≤ length text.now }
{
    let (_, behind) = text.split_at(size);
    size + blank_len(behind)
}
