// What a case finds: where something else came than was expected, or why it cannot be run.
ghost use Rattle.std.specs.Prelude.{◌≡◌, ◌≢◌, ◌+◌, length, OnOk};
ghost use Rattle.case_files.specs.declared.report.CaseFault.TheVariants.{Memory};

use std::alloc::{AllocError, AllocFailed, Global};

/// What was compared, what was expected, and what came in its place.
#[derive(Drop)]
pub struct Mismatch {
    pub what: String,
    pub expected: String,
    pub got: String,
}

/// Why a case cannot be run.
#[derive(Drop)]
pub enum CaseFault {
    /// What is wrong with it.
    Malformed(String),
    /// Memory was wanting.
    Memory,
}

impl From<AllocError> for CaseFault {
    ghost from_gives = { λ _ e. e ≡ Memory };

    fn from(_: AllocError) -> Self {
        CaseFault::Memory
    }
}

impl<T: Drop> From<AllocFailed<T>> for CaseFault {
    ghost from_gives = { λ _ e. e ≡ Memory };

    fn from(_: AllocFailed<T>) -> Self {
        CaseFault::Memory
    }
}

/// A case that cannot be run for this reason, with a word that says where.
pub fn malformed(alloc: Global, reason: &str, place: &str) -> CaseFault {
    match format!(in alloc; "{reason}{place}") {
        Ok(text) => CaseFault::Malformed(text),
        Err(_) => CaseFault::Memory,
    }
}

/// Adds a mismatch where the two differ.
pub fn compare(
    alloc: Global,
    what: &str,
    expected: &str,
    got: &str,
    found: &mut Vec<Mismatch>,
) -> Result<(), AllocError>
    ensures same { OnOk result (expected.now ≡ got.now → found.new.items ≡ found.old.items) }
    ensures differs { OnOk result (expected.now ≢ got.now → length found.new.items ≡ length found.old.items + 1) }
{
    if expected != got {
        found.push(Mismatch {
            what: String::from_str(alloc, what)?,
            expected: String::from_str(alloc, expected)?,
            got: String::from_str(alloc, got)?,
        })?;
    }
    Ok(())
}

/// Adds a mismatch where the two differ, which need not be texts.
pub fn compare_bytes(
    alloc: Global,
    what: &str,
    expected: &[u8],
    got: &[u8],
    found: &mut Vec<Mismatch>,
) -> Result<(), AllocError>
    ensures same { OnOk result (expected.now ≡ got.now → found.new.items ≡ found.old.items) }
    ensures differs { OnOk result (expected.now ≢ got.now → length found.new.items ≡ length found.old.items + 1) }
{
    if expected != got {
        found.push(Mismatch {
            what: String::from_str(alloc, what)?,
            expected: String::from_utf8_lossy(alloc, expected)?,
            got: String::from_utf8_lossy(alloc, got)?,
        })?;
    }
    Ok(())
}

/// Adds a mismatch where the words of the two differ: line breaks and runs of blanks count as one blank.
pub fn compare_words(
    alloc: Global,
    what: &str,
    expected: &str,
    got: &str,
    found: &mut Vec<Mismatch>,
) -> Result<(), AllocError> {
    let expected = in_one_line(alloc, expected)?;
    let got = in_one_line(alloc, got)?;
    compare(alloc, what, expected.as_str(), got.as_str(), found)
}

/// The words of a text with one blank between.
pub fn in_one_line(alloc: Global, text: &str) -> Result<String, AllocError> {
    let mut line = String::new(alloc);
    for word in text.split_whitespace() {
        if !line.is_empty() {
            line.push_str(" ")?;
        }
        line.push_str(word)?;
    }
    Ok(line)
}

/// A refusal with its place in a text, also by line and column from 1.
pub fn refused_at(alloc: Global, rule: &str, at: usize, text: &[u8]) -> Result<String, AllocError> {
    let (mut line, mut column) = (1usize, 1usize);
    for byte in text.iter().take(at) {
        if *byte == b'\n' {
            line = line.wrapping_add(1);
            column = 1;
        } else {
            column = column.wrapping_add(1);
        }
    }
    format!(in alloc; "{rule} at byte {at}, which is line {line}, column {column}")
}
