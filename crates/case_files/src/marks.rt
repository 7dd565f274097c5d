// Texts with marks, which stand between « and »: the place of a refusal, a byte by its number, or a piece that is repeated.
ghost use Rattle.std.specs.Prelude.{◌≤◌, IfOk};

use crate::report::{CaseFault, malformed};
use std::alloc::Global;

/// How often a piece may be repeated at most.
const MOST: usize = 100_000;

/// A rule, by its printed name, that refuses a text at a place, in bytes from 0.
#[derive(Drop)]
pub struct Place {
    pub rule: String,
    pub at: usize,
}

/// A text without its marks, and the places that they name.
#[derive(Drop)]
pub struct Marked {
    pub bytes: Vec<u8>,
    pub places: Vec<Place>,
}

impl Marked {
    /// No text.
    pub fn new(alloc: Global) -> Marked {
        Marked {
            bytes: Vec::new(alloc),
            places: Vec::new(alloc),
        }
    }

    /// Adds a text with marks.
    pub fn add(&mut self, alloc: Global, text: &str) -> Result<(), CaseFault> {
        for (number, piece) in text.split('«').enumerate() {
            let mut plain = piece;
            if number > 0 {
                let Some((mark, behind)) = piece.split_once('»') else {
                    return Err(malformed(alloc, "a mark is not closed: «", piece));
                };
                self.add_mark(alloc, mark)?;
                plain = behind;
            }
            if plain.contains('»') {
                return Err(malformed(alloc, "a mark is closed that is not open: ", plain));
            }
            self.bytes.extend_from_slice(plain.as_bytes())?;
        }
        Ok(())
    }

    fn add_mark(&mut self, alloc: Global, mark: &str) -> Result<(), CaseFault> {
        if let Some(digits) = mark.strip_prefix("x:") {
            let byte = byte_of(alloc, digits)?;
            self.bytes.push(byte)?;
            return Ok(());
        }
        if let Some((count, piece)) = mark.split_once('*') {
            let count = count_of(alloc, count)?;
            for _ in 0..count {
                self.bytes.extend_from_slice(piece.as_bytes())?;
            }
            return Ok(());
        }
        if !is_rule_name(mark.as_bytes()) {
            return Err(malformed(alloc, "there is no such mark: ", mark));
        }
        let rule = String::from_str(alloc, mark)?;
        let at = self.bytes.len();
        self.places.push(Place { rule, at })?;
        Ok(())
    }
}

fn byte_of(alloc: Global, digits: &str) -> Result<u8, CaseFault> {
    match u8::from_str_radix(digits, 16) {
        Ok(byte) if digits.len() == 2 => Ok(byte),
        _ => Err(malformed(alloc, "this is no byte in hexadecimal digits: ", digits)),
    }
}

fn count_of(alloc: Global, digits: &str) -> Result<usize, CaseFault>
    ensures { IfOk result (λ count. count ≤ MOST) }
{
    match digits.parse::<usize>() {
        Ok(count) if count <= MOST => Ok(count),
        _ => Err(malformed(alloc, "this is no number up to 100000: ", digits)),
    }
}

// A capital letter, and then one or two digits.
fn is_rule_name(name: &[u8]) -> bool {
    match name {
        [letter, digit] => letter.is_ascii_uppercase() && digit.is_ascii_digit(),
        [letter, digit, last] => {
            letter.is_ascii_uppercase() && digit.is_ascii_digit() && last.is_ascii_digit()
        }
        _ => false,
    }
}
