// Rows of numbers.
ghost use Rattle.std.specs.Prelude.{◌≡◌, ◌≢◌, ◌↔◌, ◌++◌, ℕ, ℤ, pos, List, codes, IfOk, IsTrue, MatchOption};
ghost use Rattle.finding_lines.specs.Numbers.{AreNumbers};
ghost use Rattle.finding_lines.specs.Form.{rises_from, all_positive, rises_above, are_ids};
ghost use Rattle.finding_lines.specs.Spelling.{spaced, spaced_all, ended, derived};
ghost use Rattle.finding_lines.specs.Reading.{Reads, AreNonzero, IsTaken, NoneTaken};

use crate::fields::take_number;
use crate::numbers::Numbers;
use crate::words::after;
use plc_types::Value;
use std::alloc::{AllocError, Global};

/// As many numbers as there mostly are in so many bytes, at most 256.
fn numbers_in(bytes: &[u8]) -> usize {
    (bytes.len() / 4).min(256)
}

/// Numbers to the end, each behind a space.
fn read_numbers(alloc: Global, bytes: &[u8]) -> Result<Option<Numbers>, AllocError>
    ensures { IfOk result (λ o. Reads AreNumbers spaced_all bytes.now o) }
{
    let mut numbers = Numbers::with_room(alloc, numbers_in(bytes))?;
    let mut rest = bytes;
    'row: while !rest.is_empty() {
        let Some((number, more)) = take_number(rest) else {
            return Ok(None);
        };
        numbers.push(number)?;
        rest = more;
    }
    Ok(Some(numbers))
}

/// Numbers behind a keyword.
pub fn read_row(alloc: Global, bytes: &[u8], keyword: &[u8]) -> Result<Option<Numbers>, AllocError>
    ensures { IfOk result (λ o. MatchOption o ((ns : List ℤ) → AreNumbers ns → bytes.now ≢ keyword.now ++ spaced_all ns)
        (λ ns. AreNumbers ns × (bytes.now ≡ keyword.now ++ spaced_all ns))) }
{
    let Some(rest) = after(bytes, keyword) else {
        return Ok(None);
    };
    read_numbers(alloc, rest)
}

/// Numbers up to a 0, each behind a space, and what follows it.
fn take_list(alloc: Global, bytes: &[u8]) -> Result<Option<(Numbers, &[u8])>, AllocError>
    ensures { IfOk result (λ o. MatchOption o (NoneTaken AreNonzero ended bytes.now) (λ p. IsTaken AreNonzero ended bytes.now p.0 p.1.now)) }
{
    let mut numbers = Numbers::with_room(alloc, numbers_in(bytes))?;
    let mut rest = bytes;
    'list: while let Some((number, more)) = take_number(rest) {
        if number == 0 {
            return Ok(Some((numbers, more)));
        }
        numbers.push(number)?;
        rest = more;
    }
    Ok(None)
}

/// Whether the variables of literals are above 0 and rise.
fn rises(literals: &[Value]) -> bool
    ensures { result ≡ rises_from 0 literals.now }
{
    let mut last = 0;
    for literal in literals {
        let variable = literal.unsigned_abs();
        if variable <= last {
            return false;
        }
        last = variable;
    }
    true
}

/// Whether each number is above 0.
fn are_positive(numbers: &[Value]) -> bool
    ensures { result ≡ all_positive numbers.now }
{
    for number in numbers {
        if *number <= 0 {
            return false;
        }
    }
    true
}

/// Whether each number is above the one before it, and the first above 0.
fn rise(numbers: &[Value]) -> bool
    ensures { result ≡ rises_above (pos 0) numbers.now }
{
    let mut last = 0;
    for number in numbers {
        if *number <= last {
            return false;
        }
        last = *number;
    }
    true
}

fn name_clauses(ids: &Numbers) -> bool
    ensures { result ≡ are_ids ids.now }
{
    let numbers = ids.as_slice();
    !numbers.is_empty() && rise(numbers)
}

fn has_form(literals: &Numbers, hints: &Numbers) -> bool
    ensures { IsTrue result ↔ (IsTrue (rises_from 0 literals.now) × IsTrue (all_positive hints.now)) }
{
    rises(literals.as_slice()) && are_positive(hints.as_slice())
}

/// Literals and hints.
pub fn read_derived(alloc: Global, bytes: &[u8]) -> Result<Option<(Numbers, Numbers)>, AllocError>
    ensures { IfOk result (λ o. MatchOption o
        ((ls hs : List ℤ) → AreNumbers ls → AreNumbers hs → IsTrue (rises_from 0 ls) → IsTrue (all_positive hs) → bytes.now ≢ codes "D" ++ derived ls hs)
        (λ p. AreNumbers p.0 × AreNumbers p.1 × IsTrue (rises_from 0 p.0) × IsTrue (all_positive p.1) × (bytes.now ≡ codes "D" ++ derived p.0 p.1))) }
{
    let Some(rest) = after(bytes, b"D") else {
        return Ok(None);
    };
    let Some((literals, rest)) = take_list(alloc, rest)? else {
        return Ok(None);
    };
    let Some((hints, rest)) = take_list(alloc, rest)? else {
        return Ok(None);
    };
    if !rest.is_empty() {
        return Ok(None);
    }
    if has_form(&literals, &hints) {
        Ok(Some((literals, hints)))
    } else {
        Ok(None)
    }
}

/// The numbers of clauses that are deleted.
pub fn read_deleted(alloc: Global, bytes: &[u8]) -> Result<Option<Numbers>, AllocError>
    ensures { IfOk result (λ o. MatchOption o
        ((ns : List ℤ) → AreNumbers ns → IsTrue (are_ids ns) → bytes.now ≢ codes "X" ++ ended ns)
        (λ ns. AreNumbers ns × IsTrue (are_ids ns) × (bytes.now ≡ codes "X" ++ ended ns))) }
{
    let Some(rest) = after(bytes, b"X") else {
        return Ok(None);
    };
    let Some((ids, rest)) = take_list(alloc, rest)? else {
        return Ok(None);
    };
    if !rest.is_empty() {
        return Ok(None);
    }
    if name_clauses(&ids) {
        Ok(Some(ids))
    } else {
        Ok(None)
    }
}
