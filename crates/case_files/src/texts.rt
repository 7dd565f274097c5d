// The texts of a case, each from its section or from that of its file's head.
use crate::case_file::{Case, Section};
use crate::marks::Marked;
use crate::report::{CaseFault, malformed};
use crate::section::Word;
use plc_types::Value;
use std::alloc::Global;

/// The section of a case, or of its file's head where the case has none.
pub fn section_of<'a>(
    alloc: Global,
    head: &'a Case,
    case: &'a Case,
    word: Word,
) -> Result<&'a Section, CaseFault> {
    match find_section(head, case, word) {
        Some(section) => Ok(section),
        None => Err(malformed(alloc, "the case has no section ", word.name())),
    }
}

/// The same, where there is one.
pub fn find_section<'a>(head: &'a Case, case: &'a Case, word: Word) -> Option<&'a Section> {
    match case.section(word) {
        Some(section) => Some(section),
        None => head.section(word),
    }
}

/// The text of a section, which has marks.
pub fn text_of(alloc: Global, head: &Case, case: &Case, word: Word) -> Result<Marked, CaseFault> {
    let section = section_of(alloc, head, case, word)?;
    let mut marked = Marked::new(alloc);
    marked.add(alloc, section.text())?;
    Ok(marked)
}

/// The text of a program: what the programs of the file share, and then its section.
pub fn program_of(
    alloc: Global,
    head: &Case,
    case: &Case,
    word: Word,
) -> Result<Marked, CaseFault> {
    let section = section_of(alloc, head, case, word)?;
    let mut marked = Marked::new(alloc);
    if let Some(shared) = find_section(head, case, Word::Shared) {
        if shared.argument.as_str() != "none" {
            marked.add(alloc, shared.text())?;
            marked.bytes.push(b'\n')?;
        }
    }
    marked.add(alloc, section.text())?;
    Ok(marked)
}

/// The text of NEW, which may be that of OLD.
pub fn new_program_of(alloc: Global, head: &Case, case: &Case) -> Result<Marked, CaseFault> {
    let section = section_of(alloc, head, case, Word::New)?;
    if section.argument.as_str() != "same" {
        return program_of(alloc, head, case, Word::New);
    }
    let old = program_of(alloc, head, case, Word::Old)?;
    Ok(Marked {
        bytes: old.bytes,
        places: Vec::new(alloc),
    })
}

/// What a section expects, which is a text without places of refusals.
pub fn expected_of(alloc: Global, section: &Section) -> Result<Marked, CaseFault> {
    let mut marked = Marked::new(alloc);
    marked.add(alloc, section.text())?;
    without_places(alloc, marked)
}

/// A text that has no place of a refusal.
pub fn without_places(alloc: Global, marked: Marked) -> Result<Marked, CaseFault> {
    match marked.places.first() {
        None => Ok(marked),
        Some(place) => Err(malformed(
            alloc,
            "a place of a refusal stands where none is tested: ",
            place.rule.as_str(),
        )),
    }
}

/// The same as text.
pub fn expected_text_of(alloc: Global, section: &Section) -> Result<String, CaseFault> {
    let marked = expected_of(alloc, section)?;
    match String::from_utf8(marked.bytes) {
        Ok(text) => Ok(text),
        Err(_) => Err(malformed(
            alloc,
            "what is expected is no text in the section ",
            section.word.name(),
        )),
    }
}

/// The numbers of a text, with blanks between.
pub fn numbers_of(alloc: Global, text: &str) -> Result<Vec<Value>, CaseFault> {
    let mut numbers = Vec::new(alloc);
    for word in text.split_whitespace() {
        match word.parse::<Value>() {
            Ok(number) => numbers.push(number)?,
            Err(_) => return Err(malformed(alloc, "this is no number: ", word)),
        }
    }
    Ok(numbers)
}
