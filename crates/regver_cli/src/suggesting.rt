// What the program does by the name `regver-suggest`: it prints the text of a relation with INVARIANT lines behind it. All else goes to
// standard error, so that standard output has a relation or nothing.
use crate::fault::tell_fault;
use crate::suggest_within::{Texts, suggest_as_asked};
use regver_top::Status;
use std::io::Eprint;
use std::rt::Files;
use std::time::Clock;
use std::{fs, io};
use suggest_command::{Asked, Ending, Suggestion, ending_of, ending_without, read_words};

// Ends without a text: standard error says why. Where it cannot be told, nothing more is tried.
fn end(rt: &impl Eprint, line: &str, status: u8) -> u8 {
    let _told = eprintln!(rt; "{line}");
    status
}

fn end_for_memory(rt: &impl Eprint) -> u8 {
    end(rt, "MEMORY", Status::Memory.code())
}

// Tells a note on standard error. Where it cannot be told, nothing more is tried.
fn tell(rt: &impl Eprint, note: &str) {
    let _told = eprintln!(rt; "regver-suggest: {note}");
}

// Prints the text, and tells a note on it.
fn end_with(rt: &(impl Print + Eprint), suggestion: &Suggestion, ending: &Ending) -> u8 {
    tell(rt, ending.line.as_str());
    match rt.write_all(suggestion.text.as_slice()) {
        Ok(()) => ending.status,
        Err(error) => {
            tell_fault(rt, "write", "standard output", &error);
            end(rt, "WRITE FAULT", Status::WriteFault.code())
        }
    }
}

// Prints what is suggested for three texts.
fn suggest_to(
    rt: &(impl Print + Eprint + Clock + AllocGlobal),
    texts: &Texts<'_>,
    asked: &Asked<'_>,
) -> u8 {
    let alloc = rt.alloc();
    match suggest_as_asked(rt, texts, asked) {
        Ok(suggestion) => match ending_of(alloc, &suggestion) {
            Ok(ending) => end_with(rt, &suggestion, &ending),
            Err(_) => end_for_memory(rt),
        },
        Err(error) => match ending_without(alloc, &error) {
            Ok(ending) => end(rt, ending.line.as_str(), ending.status),
            Err(_) => end_for_memory(rt),
        },
    }
}

// Reads a file, and tells it where that cannot be done.
fn read(rt: &(impl Files + Eprint + AllocGlobal), name: &str) -> io::Result<Vec<u8>> {
    match fs::read(rt, name) {
        Ok(bytes) => Ok(bytes),
        Err(error) => {
            tell_fault(rt, "read", name, &error);
            Err(error)
        }
    }
}

// Reads the three files, and prints what is suggested for them.
fn answer(
    rt: &(impl Files + Print + Eprint + Clock + AllocGlobal),
    asked: &Asked<'_>,
) -> io::Result<u8> {
    let old = read(rt, asked.old)?;
    let new = read(rt, asked.new)?;
    let relation = read(rt, asked.relation)?;
    let texts = Texts {
        old: &old,
        new: &new,
        relation: &relation,
    };
    Ok(suggest_to(rt, &texts, asked))
}

/// Whether the program was called by the name that suggests, wherever it stands.
pub fn is_asked_for(words: &[String]) -> bool {
    match words.first() {
        Some(name) => {
            let name = name.as_str();
            name == "regver-suggest" || name.ends_with("/regver-suggest")
        }
        None => false,
    }
}

/// Suggests lines for the files that the words name, of which the first is the program's own name, and returns the exit status.
pub fn suggest(rt: &(impl Files + Print + Eprint + Clock + AllocGlobal), words: &[String]) -> u8 {
    let Some(asked) = read_words(words) else {
        let usage =
            "USAGE regver-suggest [--seed N] [--pairs N] [--seconds N] [--kept] OLD NEW REL";
        return end(rt, usage, Status::Usage.code());
    };
    match answer(rt, &asked) {
        Ok(status) => status,
        Err(_) => end(rt, "READ FAULT", Status::ReadFault.code()),
    }
}
