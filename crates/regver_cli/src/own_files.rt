// Which files may be made or written over: none that was read, and of those that are there only what the program itself writes.
use crate::identity::FileIdentity;
use finding_lines::{Line, Version, show_line};
use generated_texts::{file_names, generate};
use std::alloc::{AllocError, Global};
use std::fs::{self, File, FileType, Metadata};
use std::io::{self, ErrorKind, Read};
use std::os::unix::fs::FileTypeExt;
use std::rt::Files;

// At most 80 bytes each: the system's errors hold no more.
const WAS_READ: &str = "it was read too, so it is not written over: name another file";

const NO_FINDING: &str = "it is there and is no finding: name another file, or remove it";

const NOT_GENERATED: &str = "it is there and not as gen makes it: remove it, or use another folder";

// How a file of the program begins, and how many bytes are looked at to tell.
#[derive(Drop)]
struct Beginning {
    text: Vec<u8>,
    looked_at: u64,
}

// A file of `gen`.
#[derive(Drop)]
struct MadeFile {
    name: String,
    beginnings: Vec<Beginning>,
}

/// What the program writes: a finding, and by `gen` four files.
#[derive(Drop)]
pub struct OwnFiles {
    finding: Vec<Beginning>,
    made: Vec<MadeFile>,
}

/// A file that is not to be written over, and why.
#[derive(Drop)]
pub struct Barred<'a> {
    pub name: &'a str,
    pub error: io::Error,
}

// A finding of a version begins with one line, and goes on as it likes.
fn finding_beginning(alloc: Global, version: Version) -> Result<Beginning, AllocError> {
    let mut line = String::new(alloc);
    show_line(&mut line, &Line::Header(version))?;
    line.push_str("\n")?;
    let mut text = Vec::new(alloc);
    text.extend_from_slice(line.as_bytes())?;
    let looked_at = text.len() as u64;
    Ok(Beginning { text, looked_at })
}

// Findings of both versions are the program's own.
fn finding_beginnings(alloc: Global) -> Result<Vec<Beginning>, AllocError> {
    let mut beginnings = Vec::new(alloc);
    beginnings.push(finding_beginning(alloc, Version::Two)?)?;
    beginnings.push(finding_beginning(alloc, Version::One)?)?;
    Ok(beginnings)
}

// A text that is made is all that may stand in its file.
fn made_text(alloc: Global, name: String, text: Vec<u8>) -> Result<MadeFile, AllocError> {
    let mut beginnings = Vec::new(alloc);
    beginnings.push(Beginning {
        text,
        looked_at: u64::MAX,
    })?;
    Ok(MadeFile { name, beginnings })
}

// The four files of `gen` for so many inputs.
fn made_files(alloc: Global, count: u32) -> Result<Vec<MadeFile>, AllocError> {
    let names = file_names(alloc, count)?;
    let texts = generate(alloc, count)?;
    let mut files = Vec::new(alloc);
    files.push(made_text(alloc, names.old, texts.old)?)?;
    files.push(made_text(alloc, names.new, texts.new)?)?;
    files.push(made_text(alloc, names.relation, texts.relation)?)?;
    files.push(MadeFile {
        name: names.finding,
        beginnings: finding_beginnings(alloc)?,
    })?;
    Ok(files)
}

// What is read is a front of the text, and maybe all of it. A read takes a byte at least, or is at the end.
fn is_front(file: &mut impl Read, text: &[u8]) -> io::Result<bool> {
    let mut buf = [0u8; 512];
    let mut rest = text;
    for _ in 0..text.len().saturating_add(1) {
        let count = file.read(&mut buf)?;
        if count == 0 {
            return Ok(true);
        }
        let Some(behind) = rest.strip_prefix(&buf[..count]) else {
            return Ok(false);
        };
        rest = behind;
    }
    Ok(false)
}

// A terminal, a pipe and the like keep nothing that could be written over.
fn keeps_bytes(kind: FileType) -> bool {
    !(kind.is_char_device() || kind.is_fifo() || kind.is_socket())
}

// What the system says of a file that keeps bytes; none where there is no such file.
fn kept_at<R: Files>(rt: &R, name: &str) -> io::Result<Option<Metadata>> {
    match fs::metadata(rt, name) {
        Ok(metadata) if keeps_bytes(metadata.file_type()) => Ok(Some(metadata)),
        Ok(_) => Ok(None),
        Err(error) if error.kind() == ErrorKind::NotFound => Ok(None),
        Err(error) => Err(error),
    }
}

// The file begins so, or is cut off before it has all of the beginning.
fn begins_so<R: Files>(rt: &R, name: &str, beginning: &Beginning) -> io::Result<bool> {
    let mut looked_at = File::open(rt, name)?.take(beginning.looked_at);
    is_front(&mut looked_at, &beginning.text)
}

// No file is there, or one that begins in one of these ways.
fn is_free<R: Files>(rt: &R, name: &str, beginnings: &[Beginning]) -> io::Result<bool> {
    if kept_at(rt, name)?.is_none() {
        return Ok(true);
    }
    for beginning in beginnings {
        if begins_so(rt, name, beginning)? {
            return Ok(true);
        }
    }
    Ok(false)
}

fn was_read<R: Files>(rt: &R, name: &str, read: &[FileIdentity]) -> io::Result<bool> {
    Ok(match kept_at(rt, name)? {
        Some(metadata) => read.contains(&FileIdentity::of(&metadata)),
        None => false,
    })
}

fn bar<'a>(name: &'a str, reason: &str) -> Option<Barred<'a>> {
    Some(Barred {
        name,
        error: io::Error::new(ErrorKind::AlreadyExists, reason),
    })
}

impl OwnFiles {
    /// A finding, or what `gen` makes with so many inputs.
    pub fn new(alloc: Global, count: Option<u32>) -> Result<Self, AllocError> {
        Ok(OwnFiles {
            finding: finding_beginnings(alloc)?,
            made: match count {
                Some(count) => made_files(alloc, count)?,
                None => Vec::new(alloc),
            },
        })
    }

    /// What bars the making of a file of this name: that it was read, or that it is there and is no finding; or of `gen` that one of
    /// its four files is there and does not begin as `gen` begins it.
    pub fn barring<'a, R: Files>(
        &'a self,
        rt: &R,
        name: &'a str,
        read: &[FileIdentity],
    ) -> io::Result<Option<Barred<'a>>> {
        for file in &self.made {
            if !is_free(rt, &file.name, &file.beginnings)? {
                return Ok(bar(&file.name, NOT_GENERATED));
            }
        }
        if was_read(rt, name, read)? {
            return Ok(bar(name, WAS_READ));
        }
        if self.made.is_empty() && !is_free(rt, name, &self.finding)? {
            return Ok(bar(name, NO_FINDING));
        }
        Ok(None)
    }
}
