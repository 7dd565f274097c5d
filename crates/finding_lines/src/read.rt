// Whole lines.
ghost use Rattle.std.specs.Prelude.{◌≡◌, ◌≢◌, ◌↔◌, ◌++◌, codes, IfOk, IsTrue, MatchOption};
ghost use Rattle.finding_lines.specs.Form.{IsLine, AskedFits, ConclusionFits, IsEnding};
ghost use Rattle.finding_lines.specs.Spelling.{spelled, concluded};
ghost use Rattle.finding_lines.specs.Reading.{Reads, ReadsLine, HasNoRow};
ghost use Rattle.finding_lines.specs.declared.line.Line.{Line};
ghost use Rattle.finding_lines.specs.declared.line.Conclusion.{Conclusion};

use crate::fields::{read_asked, read_conclusion};
use crate::line::{Asked, Conclusion, Line, Version};
use crate::rows::{read_deleted, read_derived, read_row};
use crate::words::after;
use std::alloc::{AllocError, Global};

// Whether the verdict can stand in an END line.
fn is_ending(conclusion: Conclusion) -> bool
    ensures { IsTrue result ↔ IsEnding conclusion }
{
    match conclusion {
        Conclusion::Spent(Asked::Walk(_), _) => false,
        _ => true,
    }
}

// The verdict behind its keyword.
fn read_end(bytes: &[u8]) -> Option<Conclusion>
    ensures { MatchOption result ((v : Conclusion) → ConclusionFits v → IsEnding v → bytes.now ≢ codes "END" ++ concluded v)
        (λ v. ConclusionFits v × IsEnding v × (bytes.now ≡ codes "END" ++ concluded v)) }
{
    let rest = after(bytes, b"END")?;
    let conclusion = read_conclusion(rest)?;
    if is_ending(conclusion) {
        Some(conclusion)
    } else {
        None
    }
}

// The line that is spelled so, if it has no row of numbers.
fn read_short(bytes: &[u8]) -> Option<Line>
    ensures { MatchOption result ((l : Line) → IsLine l → HasNoRow l → bytes.now ≢ spelled l)
        (λ l. IsLine l × (bytes.now ≡ spelled l)) }
{
    if bytes == b"REGVER FINDING 1".as_slice() {
        return Some(Line::Header(Version::One));
    }
    if bytes == b"REGVER FINDING 2".as_slice() {
        return Some(Line::Header(Version::Two));
    }
    if let Some(query) = read_asked(bytes, b"LOG") {
        return Some(Line::Log(query));
    }
    if let Some(query) = read_asked(bytes, b"QUERY") {
        return Some(Line::Query(query));
    }
    let conclusion = read_end(bytes)?;
    Some(Line::End(conclusion))
}

/// The line that is spelled so, without its line feed.
pub fn read_line(alloc: Global, bytes: &[u8]) -> Result<Option<Line>, AllocError>
    ensures { IfOk result (λ answer. ReadsLine bytes.now answer) }
{
    if let Some((literals, hints)) = read_derived(alloc, bytes)? {
        return Ok(Some(Line::Derived(literals, hints)));
    }
    if let Some(numbers) = read_row(alloc, bytes, b"DROP")? {
        return Ok(Some(Line::Dropping(numbers)));
    }
    if let Some(inputs) = read_row(alloc, bytes, b"SCAN")? {
        return Ok(Some(Line::Scan(inputs)));
    }
    if let Some(inputs) = read_row(alloc, bytes, b"SEEN")? {
        return Ok(Some(Line::Seen(inputs)));
    }
    if let Some(numbers) = read_row(alloc, bytes, b"PAIR")? {
        return Ok(Some(Line::Pair(numbers)));
    }
    if let Some(inputs) = read_row(alloc, bytes, b"WALK")? {
        return Ok(Some(Line::Walk(inputs)));
    }
    if let Some(ids) = read_deleted(alloc, bytes)? {
        return Ok(Some(Line::Deleted(ids)));
    }
    Ok(read_short(bytes))
}
