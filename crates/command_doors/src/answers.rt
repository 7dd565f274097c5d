// What a command answers to files: a status, and below it what is put.
use crate::files::TextFile;
use case_files::{Case, CaseFault, Word, expected_of, malformed, section_of};
use std::alloc::{AllocError, Global};

/// A status, and below it what is put.
pub(crate) fn answer(alloc: Global, status: u8, lines: &[u8]) -> Result<Vec<u8>, AllocError> {
    let head = format!(in alloc; "status {status}\n")?;
    let mut answer = Vec::new(alloc);
    answer.extend_from_slice(head.as_bytes())?;
    answer.extend_from_slice(lines)?;
    Ok(answer)
}

// The answer that a case states in a section of that word.
fn expected_answer(
    alloc: Global,
    head: &Case,
    case: &Case,
    word: Word,
) -> Result<Vec<u8>, CaseFault> {
    let section = section_of(alloc, head, case, word)?;
    let mut lines = expected_of(alloc, section)?.bytes;
    if !lines.is_empty() {
        lines.push(b'\n')?;
    }
    match section.argument.as_str().parse::<u8>() {
        Ok(status) => Ok(answer(alloc, status, &lines)?),
        Err(_) => Err(malformed(alloc, "the answer has no status", "")),
    }
}

// The answer to files one of which has the place of a refusal.
fn expected_refusal(alloc: Global, files: &[TextFile]) -> Result<Option<Vec<u8>>, CaseFault> {
    let mut expected = None;
    for file in files {
        let source = file.source;
        for place in &file.text.places {
            if expected.is_some() {
                return Err(malformed(alloc, "a case has two places of refusals", ""));
            }
            let (rule, at) = (place.rule.as_str(), place.at);
            let line = format!(in alloc; "REFUSED {source} {rule} at {at}\n")?;
            expected = Some(answer(alloc, 6, line.as_bytes())?);
        }
    }
    Ok(expected)
}

/// The answer that a case expects: that of a refusal where a file has the place of one, and else the one that it states.
pub(crate) fn expected_of_case(
    alloc: Global,
    head: &Case,
    case: &Case,
    word: Word,
    files: &[TextFile],
) -> Result<Vec<u8>, CaseFault> {
    match expected_refusal(alloc, files)? {
        None => expected_answer(alloc, head, case, word),
        Some(refusal) => {
            if case.section(word).is_some() {
                let reason = "there is an answer beside the place of a refusal";
                return Err(malformed(alloc, reason, ""));
            }
            Ok(refusal)
        }
    }
}
