// From a JSON text to the rows of a trace, in one pass over its tokens.
ghost use Rattle.std.specs.Prelude.{◌≡◌, ◌<◌, ◌≤◌, ◌+◌, ◌^◌, ⊤, List, ℤ, length, Some, None, IfOk, IfSome, MatchOption, option_and_then};
ghost use Rattle.std.specs.Bool.{MatchBool};
ghost use Rattle.serde_json.specs.Read.{read};
ghost use Rattle.trace_rows.specs.Reading.{after_begin_array, number_read, numbers_read, row_read, rows_read, IsAdded};
ghost use Rattle.trace_rows.specs.Traces.{trace_in, IsTrace};

use crate::marks::unmarked;
use crate::number::whole_number;
use crate::rows::TraceRows;
use json::{Reader, Scratch, Token};
use plc_types::Value;
use std::alloc::{AllocError, Global};

// Takes the bracket that opens an array.
fn begin_array(reader: &mut Reader<'_>) -> bool
    ensures { MatchBool result (after_begin_array reader.old ≡ Some reader.new) (after_begin_array reader.old ≡ None) }
{
    let Some(token) = reader.next() else {
        return false;
    };
    matches!(token, Token::BeginArray)
}

// Takes a number that is whole and fits.
fn read_number(reader: &mut Reader<'_>) -> Option<Value>
    ensures value { MatchOption result (number_read reader.old ≡ None) (λ z. number_read reader.old ≡ Some (z, reader.new)) }
    ensures shorter { IfSome result (λ _. length reader.new < length reader.old) }
{
    let Some(token) = reader.next() else {
        return None;
    };
    match token {
        Token::Number(text) => whole_number(text),
        _ => None,
    }
}

// Reads the numbers of a row up to its closing bracket, and puts them behind the others.
fn read_numbers(reader: &mut Reader<'_>, numbers: &mut Vec<Value>) -> Result<bool, AllocError>
    ensures value { IfOk result (λ read. MatchBool read (IsAdded (numbers_read (length reader.old) reader.old) numbers.old.items numbers.new.items reader.new) (numbers_read (length reader.old) reader.old ≡ None)) }
    ensures shorter { IfOk result (λ read. MatchBool read (length reader.new < length reader.old) ⊤) }
{
    while !reader.take_end_array() {
        let Some(number) = read_number(reader) else {
            return Ok(false);
        };
        numbers.push(number)?;
    }
    Ok(true)
}

// Reads a row of so many numbers, and puts them behind the others.
fn read_row(
    width: usize,
    reader: &mut Reader<'_>,
    numbers: &mut Vec<Value>,
) -> Result<bool, AllocError>
    ensures value { IfOk result (λ read. MatchBool read (IsAdded (row_read width reader.old) numbers.old.items numbers.new.items reader.new) (row_read width reader.old ≡ None)) }
    ensures shorter { IfOk result (λ read. MatchBool read (length reader.new < length reader.old) ⊤) }
    ensures wide { IfOk result (λ read. MatchBool read (length numbers.new.items ≡ length numbers.old.items + width) ⊤) }
{
    if !begin_array(reader) {
        return Ok(false);
    }
    let before = numbers.len();
    if !read_numbers(reader, numbers)? {
        return Ok(false);
    }
    Ok(numbers.len() - before == width)
}

// Reads the rows up to the closing bracket of the trace.
fn read_rows(
    alloc: Global,
    width: usize,
    reader: &mut Reader<'_>,
) -> Result<Option<TraceRows>, AllocError>
    requires { length reader.old < 2 ^ 64 }
    ensures { IfOk result (λ o. MatchOption o (rows_read width (length reader.old) reader.old ≡ None) (λ rows. rows_read width (length reader.old) reader.old ≡ Some (rows, reader.new))) }
{
    let mut numbers = Vec::new(alloc);
    let mut count = 0;
    while !reader.take_end_array() {
        if !read_row(width, reader, &mut numbers)? {
            return Ok(None);
        }
        count += 1;
    }
    Ok(Some(TraceRows::new(width, count, numbers)))
}

fn read_tokens(
    alloc: Global,
    width: usize,
    text: &str,
    scratch: &mut Scratch,
) -> Result<Option<TraceRows>, AllocError>
    ensures { IfOk result (λ o. o ≡ option_and_then (trace_in width) (read text.now)) }
{
    let mut reader = Reader::new(text, scratch)?;
    if !begin_array(&mut reader) {
        return Ok(None);
    }
    let Some(rows) = read_rows(alloc, width, &mut reader)? else {
        return Ok(None);
    };
    if reader.next().is_some() {
        return Ok(None);
    }
    Ok(Some(rows))
}

// The memory that reading takes is given back before the rows are.
fn read_text(alloc: Global, width: usize, text: &str) -> Result<Option<TraceRows>, AllocError>
    ensures { IfOk result (λ o. o ≡ option_and_then (trace_in width) (read text.now)) }
{
    let mut scratch = Scratch::new(alloc);
    read_tokens(alloc, width, text, &mut scratch)
}

/// The rows of a trace, or none where the text is no trace. A UTF-8 mark may stand before it.
#[tactic(auto, unfolding(crate::specs::Traces::IsTrace))]
pub fn read_trace(alloc: Global, width: usize, text: &[u8]) -> Result<Option<TraceRows>, AllocError>
    ensures { IfOk result (λ o. MatchOption o ((rows : List (List ℤ)) → ¬ IsTrace width text.now rows) (λ rows. IsTrace width text.now rows)) }
{
    match simdutf8::compat::from_utf8(unmarked(text)) {
        Ok(text) => read_text(alloc, width, text),
        Err(_) => Ok(None),
    }
}
