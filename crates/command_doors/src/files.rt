// The files of a command, and what it makes of them.
use crate::answers::answer;
use case_files::{
    Case, CaseFault, Marked, Mismatch, Word, compare_bytes, new_program_of, program_of, text_of,
};
use outside::{Failure, MemShelf, MemSink};
use regver_top::{Status, regver};
use std::alloc::{AllocError, Global};

/// A file that a command reads: its name, the name that refusals have for it, and its text.
#[derive(Drop)]
pub(crate) struct TextFile {
    pub name: &'static str,
    pub source: &'static str,
    pub text: Marked,
}

/// A run of the program: its words, the files that it reads, and the names of those that it may save.
#[derive(Clone, Copy)]
pub(crate) struct Run<'a> {
    pub words: &'a [&'a str],
    pub files: &'a [TextFile],
    pub saved: &'a [&'a str],
}

/// The files of OLD, NEW and the relation.
pub(crate) fn compared_files(
    alloc: Global,
    head: &Case,
    case: &Case,
) -> Result<Vec<TextFile>, CaseFault> {
    let mut files = Vec::new(alloc);
    files.push(TextFile {
        name: "old",
        source: "OLD",
        text: program_of(alloc, head, case, Word::Old)?,
    })?;
    files.push(TextFile {
        name: "new",
        source: "NEW",
        text: new_program_of(alloc, head, case)?,
    })?;
    files.push(TextFile {
        name: "relation",
        source: "REL",
        text: text_of(alloc, head, case, Word::Relation)?,
    })?;
    Ok(files)
}

/// Puts these files on a shelf.
pub(crate) fn fill(shelf: &mut MemShelf, files: &[TextFile]) -> Result<(), AllocError> {
    for file in files {
        shelf.fill(file.name, &file.text.bytes)?;
    }
    Ok(())
}

/// A shelf with these files.
pub(crate) fn shelf_of(alloc: Global, files: &[TextFile]) -> Result<MemShelf, AllocError> {
    let mut shelf = MemShelf::new(alloc, Vec::new(alloc));
    fill(&mut shelf, files)?;
    Ok(shelf)
}

/// The status that a command ends with, the bytes that it puts, and by how many puts.
#[derive(Drop)]
pub(crate) struct Ended {
    pub status: Status,
    pub lines: Vec<u8>,
    pub puts: u64,
}

/// Runs the program by these words, on a sink whose puts may fail.
pub(crate) fn run_program(
    alloc: Global,
    words: &[&str],
    shelf: &mut MemShelf,
    failures: Vec<Failure>,
) -> Result<Ended, AllocError> {
    let mut owned = Vec::new(alloc);
    for word in words {
        owned.push(String::from_str(alloc, word)?)?;
    }
    let mut out = MemSink::new(alloc, failures);
    let status = regver(alloc, owned, shelf, &mut out);
    let lines = Vec::from_slice(alloc, out.bytes())?;
    let puts = out.counts().puts;
    Ok(Ended {
        status,
        lines,
        puts,
    })
}

/// Adds a mismatch where a command ends otherwise than expected.
pub(crate) fn compare_ended(
    alloc: Global,
    what: &str,
    expected: &[u8],
    ended: &Ended,
    found: &mut Vec<Mismatch>,
) -> Result<(), AllocError> {
    let got = answer(alloc, ended.status.code(), &ended.lines)?;
    compare_bytes(alloc, what, expected, &got, found)
}

/// Adds a mismatch where a file that a command has read is not as it was.
pub(crate) fn compare_files(
    alloc: Global,
    files: &[TextFile],
    shelf: &MemShelf,
    found: &mut Vec<Mismatch>,
) -> Result<(), AllocError> {
    for file in files {
        let (was, now) = (&file.text.bytes, shelf.bytes(file.name));
        compare_bytes(alloc, "a file after the run", was, now, found)?;
    }
    Ok(())
}

/// Runs a command that only reads files, and compares what it ends with.
pub(crate) fn compare_run(
    alloc: Global,
    reading: &Run<'_>,
    expected: &[u8],
    found: &mut Vec<Mismatch>,
) -> Result<(), AllocError> {
    let mut shelf = shelf_of(alloc, reading.files)?;
    let ended = run_program(alloc, reading.words, &mut shelf, Vec::new(alloc))?;
    compare_ended(alloc, "status and output", expected, &ended, found)?;
    compare_files(alloc, reading.files, &shelf, found)
}
