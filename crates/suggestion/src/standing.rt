// Clauses that stand in a text already, so that none is suggested twice. Each is known by a checksum of its bytes.
use line_trials::InvariantLine;
use std::alloc::{AllocError, Global};

// The checksum of no bytes, and the factor of each byte: those of FNV-1a.
const NO_BYTES: u64 = 14_695_981_039_346_656_037;

const FACTOR: u64 = 1_099_511_628_211;

// What was read of a statement: capitals and small letters are one, and a space counts only between two words.
#[derive(Clone, Copy)]
struct Statement {
    sum: u64,
    last: u8,
    is_behind_space: bool,
}

// Where in a text a byte stands.
#[derive(Clone, Copy)]
enum Part {
    Statement,
    CommentOpening,
    Comment,
    CommentClosing,
}

fn is_of_word(byte: u8) -> bool {
    byte.is_ascii_alphanumeric() || byte == b'_'
}

impl Statement {
    fn new() -> Statement {
        Statement {
            sum: NO_BYTES,
            last: b';',
            is_behind_space: false,
        }
    }

    fn add(&mut self, byte: u8) {
        self.sum = (self.sum ^ u64::from(byte)).wrapping_mul(FACTOR);
    }

    fn take(&mut self, byte: u8) {
        if byte.is_ascii_whitespace() {
            self.is_behind_space = true;
            return;
        }
        if self.is_behind_space && is_of_word(self.last) && is_of_word(byte) {
            self.add(b' ');
        }
        self.add(byte.to_ascii_uppercase());
        self.last = byte;
        self.is_behind_space = false;
    }

    fn take_all(&mut self, bytes: &[u8]) {
        for byte in bytes {
            self.take(*byte);
        }
    }
}

// The checksums of the statements of a text, rising.
fn statements_of(alloc: Global, text: &[u8]) -> Result<Vec<u64>, AllocError> {
    let mut sums = Vec::new(alloc);
    let mut statement = Statement::new();
    let mut part = Part::Statement;
    for (place, byte) in text.iter().enumerate() {
        let next = text.get(place.wrapping_add(1)).copied().unwrap_or(b' ');
        match part {
            Part::CommentOpening => part = Part::Comment,
            Part::Comment if *byte == b'*' && next == b')' => part = Part::CommentClosing,
            Part::Comment => {}
            Part::CommentClosing => part = Part::Statement,
            Part::Statement if *byte == b'(' && next == b'*' => {
                statement.take(b' ');
                part = Part::CommentOpening;
            }
            Part::Statement if *byte == b';' => {
                sums.push(statement.sum)?;
                statement = Statement::new();
            }
            Part::Statement => statement.take(*byte),
        }
    }
    sums.sort_unstable();
    Ok(sums)
}

// Whether a statement of this word and clause is among those of the checksums.
fn stands(sums: &[u64], word: &[u8], clause: &[u8]) -> bool {
    let mut statement = Statement::new();
    statement.take_all(word);
    statement.take(b' ');
    statement.take_all(clause);
    sums.binary_search(&statement.sum).is_ok()
}

/// The lines whose clause stands in no RELATE or INVARIANT line of the text, at most so many.
pub fn new_lines(
    alloc: Global,
    text: &[u8],
    lines: Vec<InvariantLine>,
    room: usize,
) -> Result<Vec<InvariantLine>, AllocError> {
    let sums = statements_of(alloc, text)?;
    let mut found = Vec::new(alloc);
    for line in lines {
        let clause = line.clause.as_bytes();
        let is_known = stands(sums.as_slice(), b"INVARIANT", clause)
            || stands(sums.as_slice(), b"RELATE", clause);
        if !is_known && found.len() < room {
            found.push(line)?;
        }
    }
    Ok(found)
}
