// Case files: titled cases, each of which has sections.
ghost use Rattle.std.specs.Prelude.{◌≡◌, IfSome};

use crate::section::Word;
use std::alloc::{AllocError, Global};

/// A section: its word, what stands behind the word, and its lines, each with a newline.
#[derive(Drop)]
pub struct Section {
    pub word: Word,
    pub argument: String,
    pub lines: String,
}

impl Section {
    /// Its text: its lines without the blank ones at the end, and without a newline there.
    pub fn text(&self) -> &str {
        self.lines.as_str().trim_end_matches('\n')
    }
}

/// A case: its title, its sections, and what of its lines cannot be read, a line for each.
#[derive(Drop)]
pub struct Case {
    pub title: String,
    pub sections: Vec<Section>,
    pub unreadable: String,
}

impl Case {
    /// The first section with this word.
    pub fn section(&self, word: Word) -> Option<&Section>
        ensures { IfSome result (λ section. section.now.word ≡ word) }
    {
        for section in &self.sections {
            if section.word == word {
                return Some(section);
            }
        }
        None
    }
}

/// A file: the sections in front of its first case, which stand for those that a case leaves out, and its cases.
#[derive(Drop)]
pub struct CaseFile {
    pub name: String,
    pub head: Case,
    pub cases: Vec<Case>,
}

/// The case file of this name and text.
pub fn read_case_file(alloc: Global, name: &str, text: &str) -> Result<CaseFile, AllocError> {
    let head = new_case(alloc, "the sections in front of the first case")?;
    let name = String::from_str(alloc, name)?;
    let cases = Vec::new(alloc);
    let mut file = CaseFile { name, head, cases };
    for line in text.lines() {
        add_line(alloc, &mut file, line)?;
    }
    note_texts(&mut file.head)?;
    for case in &mut file.cases {
        note_texts(case)?;
    }
    Ok(file)
}

fn new_case(alloc: Global, title: &str) -> Result<Case, AllocError> {
    Ok(Case {
        title: String::from_str(alloc, title)?,
        sections: Vec::new(alloc),
        unreadable: String::new(alloc),
    })
}

fn add_line(alloc: Global, file: &mut CaseFile, line: &str) -> Result<(), AllocError> {
    if line.starts_with('%') {
        return Ok(());
    }
    match line.strip_prefix("==") {
        Some(title) => add_case(alloc, &mut file.cases, title.trim()),
        None => match file.cases.last_mut() {
            Some(case) => add_to_case(alloc, case, line),
            None => add_to_case(alloc, &mut file.head, line),
        },
    }
}

fn add_case(alloc: Global, cases: &mut Vec<Case>, title: &str) -> Result<(), AllocError> {
    let mut case = new_case(alloc, title)?;
    if title.is_empty() {
        note(&mut case, "the case has no title", "")?;
    }
    if has_title(cases, title) {
        note(&mut case, "another case has this title", "")?;
    }
    cases.push(case)?;
    Ok(())
}

fn has_title(cases: &[Case], title: &str) -> bool {
    for case in cases {
        if case.title.as_str() == title {
            return true;
        }
    }
    false
}

// Notes that something cannot be read.
fn note(case: &mut Case, what: &str, line: &str) -> Result<(), AllocError> {
    case.unreadable.push_str(what)?;
    case.unreadable.push_str(line)?;
    case.unreadable.push_str("\n")
}

fn add_to_case(alloc: Global, case: &mut Case, line: &str) -> Result<(), AllocError> {
    if let Some(words) = line.strip_prefix("--") {
        return add_section(alloc, case, words.trim());
    }
    if let Some(section) = case.sections.last_mut() {
        section.lines.push_str(line)?;
        return section.lines.push_str("\n");
    }
    if line.trim().is_empty() {
        return Ok(());
    }
    note(case, "this line stands in no section: ", line)
}

fn add_section(alloc: Global, case: &mut Case, words: &str) -> Result<(), AllocError> {
    let (first, behind) = words.split_once(' ').unwrap_or((words, ""));
    let argument = behind.trim();
    let Some(word) = Word::of(first) else {
        return note(case, "there is no such section: ", words);
    };
    if !word.takes(argument) {
        note(
            case,
            "a section has something else behind its word: ",
            words,
        )?;
    }
    if !word.may_repeat() && case.section(word).is_some() {
        note(case, "a section stands twice: ", words)?;
    }
    let argument = String::from_str(alloc, argument)?;
    let lines = String::new(alloc);
    case.sections.push(Section {
        word,
        argument,
        lines,
    })?;
    Ok(())
}

// Notes those sections that have a text and should have none.
fn note_texts(case: &mut Case) -> Result<(), AllocError> {
    for section in &case.sections {
        let has_text = section.word.has_text(section.argument.as_str());
        if !has_text && !section.text().trim().is_empty() {
            case.unreadable
                .push_str("no text may stand in the section ")?;
            case.unreadable.push_str(section.word.name())?;
            case.unreadable.push_str(" ")?;
            case.unreadable.push_str(section.argument.as_str())?;
            case.unreadable.push_str("\n")?;
        }
    }
    Ok(())
}
