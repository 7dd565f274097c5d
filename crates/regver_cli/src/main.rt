// The program: it hands the real files and the standard output to the regression verifier. By the name `regver-suggest` it suggests lines.
#![tactic(auto)]

ghost use Rattle.std.specs.Prelude.{false, ◌≡◌};

mod fault;
mod file_shelf;
mod identity;
mod own_files;
mod progress;
mod std_sink;
mod suggest_within;
mod suggesting;
mod words;

use command_line::{Command, count_of, read_words};
use file_shelf::FileShelf;
use outside::{Shelf, Sink};
use own_files::OwnFiles;
use progress::Progress;
use regver_top::{Status, regver};
use std::alloc::{AllocError, Global};
use std::io::{self, ErrorKind, IsTerminal};
use std::process::ExitCode;
use std_sink::StdSink;
use suggesting::{is_asked_for, suggest};
use words::words_of;

// Does all that the program does. A word that is no text makes no command: the usage is answered, as to no words at all.
fn answer<S: Shelf, K: Sink>(
    alloc: Global,
    words: io::Result<Vec<String>>,
    shelf: &mut S,
    out: &mut K,
) -> Status
    requires reads { (S.state shelf.old).read_failed ≡ false }
    requires puts { (K.state out.old).put_failed ≡ false }
{
    match words {
        Ok(words) => regver(alloc, words, shelf, out),
        Err(error) if error.kind() == ErrorKind::InvalidData => {
            regver(alloc, Vec::new(alloc), shelf, out)
        }
        Err(_) => Status::Memory,
    }
}

// How many inputs the command asks `gen` for, if it does.
fn count_of_gen(command: &Option<Command>) -> Option<u32> {
    match command {
        Some(Command::Gen(word)) => count_of(word),
        _ => None,
    }
}

fn count_in(alloc: Global, words: Vec<String>) -> Result<Option<u32>, AllocError> {
    let command = read_words(alloc, words)?;
    Ok(count_of_gen(&command))
}

// The files that the program may write, by the words that it was called with.
fn files_of(rt: &HostRuntime) -> Result<OwnFiles, AllocError> {
    let alloc = rt.alloc();
    let count = match words_of(rt) {
        Ok(words) => count_in(alloc, words)?,
        Err(_) => None,
    };
    OwnFiles::new(alloc, count)
}

// Answers the words as the regression verifier does.
fn run(rt: &HostRuntime, words: io::Result<Vec<String>>) -> Status {
    let Ok(own) = files_of(rt) else {
        return Status::Memory;
    };
    let progress = Progress::new(rt, rt.stderr().is_terminal());
    let mut shelf = FileShelf::new(rt.alloc(), &progress, own);
    let mut out = StdSink::new(&progress);
    let status = answer(rt.alloc(), words, &mut shelf, &mut out);
    progress.clear();
    status
}

fn main(rt: HostRuntime) -> ExitCode {
    match words_of(&rt) {
        Ok(words) => {
            if is_asked_for(&words) {
                ExitCode::from(suggest(&rt, &words))
            } else {
                ExitCode::from(run(&rt, Ok(words)).code())
            }
        }
        Err(error) => ExitCode::from(run(&rt, Err(error)).code()),
    }
}
