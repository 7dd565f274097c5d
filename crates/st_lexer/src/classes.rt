// Classes of bytes, and how far they go on.
ghost use Rattle.std.specs.Prelude.{◌≡◌, ◌<◌, ◌≤◌, ◌+◌, length, slice_index, IfSome};
ghost use Rattle.std.specs.List.{prefix_len};
ghost use Rattle.source_tree.specs.Bytes.{is_letter, is_word_byte, is_number_byte, is_blank, is_sign, is_sign_pair};
ghost use Rattle.source_tree.specs.Tokens.{is_in_line, mark_len};
ghost use Rattle.st_lexer.specs.Fronts.{closed_len};

pub fn is_letter(b: u8) -> bool
    ensures { result ≡ is_letter b }
{
    b.is_ascii_alphabetic() || b == b'_'
}

fn is_word_byte(b: u8) -> bool
    ensures { result ≡ is_word_byte b }
{
    is_letter(b) || b.is_ascii_digit()
}

fn is_number_byte(b: u8) -> bool
    ensures { result ≡ is_number_byte b }
{
    is_word_byte(b) || b == b'#'
}

pub fn is_blank(b: u8) -> bool
    ensures { result ≡ is_blank b }
{
    matches!(b, b'\t' | b'\n' | 12 | b'\r' | b' ')
}

pub fn is_sign(b: u8) -> bool
    ensures { result ≡ is_sign b }
{
    matches!(b, b'('..=b'/' | b':'..=b'>' | b'#' | b'&')
}

pub fn is_sign_pair(b: u8, c: u8) -> bool
    ensures { result ≡ is_sign_pair b c }
{
    matches!(
        (b, c),
        (b':', b'=') | (b'=', b'>') | (b'<', b'>') | (b'<', b'=') | (b'>', b'=') | (b'.', b'.')
    )
}

/// The byte at a place, or 0 past the end.
pub fn byte_at(bytes: &[u8], place: usize) -> u8
    ensures { result ≡ slice_index bytes.now place }
{
    bytes.get(place).copied().unwrap_or(0)
}

/// How many blanks stand at the front.
pub fn blank_len(bytes: &[u8]) -> usize
    ensures len { result ≡ prefix_len is_blank bytes.now }
    ensures within { result ≤ length bytes.now }
{
    bytes.iter().take_while(|b| is_blank(**b)).count()
}

/// How many bytes at the front may go on a word.
pub fn word_len(bytes: &[u8]) -> usize
    ensures len { result ≡ prefix_len is_word_byte bytes.now }
    ensures within { result ≤ length bytes.now }
{
    bytes.iter().take_while(|b| is_word_byte(**b)).count()
}

/// How many bytes at the front may go on a number.
pub fn number_len(bytes: &[u8]) -> usize
    ensures len { result ≡ prefix_len is_number_byte bytes.now }
    ensures within { result ≤ length bytes.now }
{
    bytes.iter().take_while(|b| is_number_byte(**b)).count()
}

/// How many bytes the rest of a line has.
pub fn line_len(bytes: &[u8]) -> usize
    ensures len { result ≡ prefix_len is_in_line bytes.now }
    ensures within { result ≤ length bytes.now }
{
    bytes.iter().take_while(|b| **b != b'\n').count()
}

/// How many bytes there are up to and with the first `*)`, where there is one.
pub fn closed_len(bytes: &[u8]) -> Option<usize>
    ensures len { result ≡ closed_len bytes.now }
    ensures within { IfSome result (λ n. (n ≤ length bytes.now) × (0 < n)) }
{
    for (place, byte) in bytes.iter().enumerate() {
        if *byte == b'*' && byte_at(bytes, place + 1) == b')' {
            return Some(place + 2);
        }
    }
    None
}

/// How many bytes a UTF-8 mark takes at the front of a text.
pub fn mark_len(text: &[u8]) -> usize
    ensures len { result ≡ mark_len text.now }
    ensures within { result ≤ length text.now }
{
    if byte_at(text, 0) == 0xef && byte_at(text, 1) == 0xbb && byte_at(text, 2) == 0xbf {
        3
    } else {
        0
    }
}
