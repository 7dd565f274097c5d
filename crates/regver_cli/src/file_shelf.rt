// The files that the system has. What they hold is not told.
ghost use Rattle.std.specs.Prelude.{◌≡◌, List, ℕ, None, IfOk, ◌≤◌, length};

use crate::fault::counted;
use crate::identity::FileIdentity;
use crate::own_files::OwnFiles;
use crate::progress::Progress;
use outside::{OutErr, Shelf};
use std::alloc::Global;
use std::fs::{File, OpenFile, OpenOptions};
use std::io::{self, Eprint, Read, Seek, SeekFrom, Write};
use std::rt::Files;
use std::time::Clock;

/// Files by their paths, which are those of the folder that the program runs in. A file that was read, or that the program itself would not
/// write so, is not written over: to make it is a fault.
#[derive(Drop)]
pub struct FileShelf<'a, R> {
    progress: &'a Progress<'a, R>,
    own: OwnFiles,
    read: Vec<FileIdentity>,
    read_faults: u64,
    write_faults: u64,
}

impl<'a, R: Eprint + Files + Clock> FileShelf<'a, R> {
    pub fn new(alloc: Global, progress: &'a Progress<'a, R>, own: OwnFiles) -> Self
        ensures reads { (name : List ℕ) → (⟦<FileShelf<'a, R> as Shelf>⟧.state result).read_faults name ≡ 0 }
        ensures writes { (name : List ℕ) → (⟦<FileShelf<'a, R> as Shelf>⟧.state result).write_faults name ≡ 0 }
    {
        FileShelf {
            progress,
            own,
            read: Vec::new(alloc),
            read_faults: 0,
            write_faults: 0,
        }
    }
}

// What was read at once: of which file, and how many bytes.
#[derive(Clone, Copy)]
struct Piece {
    identity: FileIdentity,
    count: usize,
}

// Reads once from that place on. A folder, or a file that cannot be opened or has no places, is an error.
fn read_from<R: Files>(rt: &R, name: &str, from: u64, buf: &mut [u8]) -> io::Result<Piece>
    ensures { IfOk result (λ piece. piece.count ≤ length buf.new) }
{
    let mut file = File::open(rt, name)?;
    let identity = FileIdentity::of(&file.metadata()?);
    file.seek(SeekFrom::Start(from))?;
    let count = file.read(buf)?;
    Ok(Piece { identity, count })
}

fn make_empty<R: Files>(rt: &R, name: &str) -> io::Result<()> {
    File::create(rt, name)?;
    Ok(())
}

fn add_to<R: Files>(rt: &R, name: &str, bytes: &[u8]) -> io::Result<()> {
    let mut options = OpenOptions::new();
    let mut file = options.append(true).create(true).open(rt, name)?;
    file.write_all(bytes)
}

impl<R: Eprint + Files + Clock> Shelf for FileShelf<'_, R> {
    ghost use Rattle.outside.specs.States.{shelf_state};

    ghost state = { λ s. shelf_state (λ name. None) s.read_faults s.write_faults };

    fn read_at(&mut self, name: &str, from: u64, buf: &mut [u8]) -> Result<usize, OutErr> {
        let answer = read_from(self.progress.system(), name, from, buf);
        let piece = counted(self.progress, answer, "read", name, &mut self.read_faults)?;
        if !self.read.contains(&piece.identity) {
            self.read.push(piece.identity)?;
        }
        Ok(piece.count)
    }

    fn create(&mut self, name: &str) -> Result<(), OutErr> {
        let system = self.progress.system();
        let (at, answer) = match self.own.barring(system, name, &self.read) {
            Ok(None) => (name, make_empty(system, name)),
            Ok(Some(barred)) => (barred.name, Err(barred.error)),
            Err(error) => (name, Err(error)),
        };
        counted(self.progress, answer, "make", at, &mut self.write_faults)
    }

    fn append(&mut self, name: &str, bytes: &[u8]) -> Result<(), OutErr> {
        let answer = add_to(self.progress.system(), name, bytes);
        if answer.is_ok() {
            self.progress.count(bytes);
        }
        counted(self.progress, answer, "write", name, &mut self.write_faults)
    }
}
