// Lines written one after another, each by one append.
ghost use Rattle.std.specs.Prelude.{◌≡◌, ◌+◌, ◌<◌, ◌≤◌, ℕ, length, take, IfOk, OnOk, OnErr};
ghost use Rattle.outside.specs.Causes.{NoneFell};
ghost use Rattle.outside.specs.Contents.{extended, OthersStay};
ghost use Rattle.finding_lines.specs.Spelling.{written};

use crate::errors::WriteErr;
use finding_lines::{Line, show_line};
use outside::Shelf;
use std::alloc::{AllocError, Global};
use std::marker::Model;

/// A writer of a finding.
#[derive(Drop)]
pub struct FindingWriter {
    name: String,
    limit: u64,
    size: u64,
    text: String,
}

impl Model for FindingWriter {
    ghost use Rattle.std.specs.Prelude.{◌≤◌, string_bytes};
    ghost use Rattle.finding_file.specs.Writing.{Writing};

    ghost Value = { Writing };

    ghost view = { λ w. record { name = string_bytes w.name; limit = w.limit; size = w.size } };

    ghost invariant = { λ w. w.size ≤ w.limit };
}

impl FindingWriter {
    ghost use Rattle.finding_file.specs.Causes.{IsCausedBy};

    /// A writer that has written nothing. It touches no file.
    pub fn new(alloc: Global, name: &str, limit: u64) -> Result<Self, AllocError>
        ensures { IfOk result (λ w. w ≡ record { name = name.now; limit = limit; size = 0 }) }
    {
        Ok(FindingWriter {
            name: String::from_str(alloc, name)?,
            limit,
            size: 0,
            text: String::new(alloc),
        })
    }

    /// Adds a line to the file, unless the file would pass the limit.
    pub fn line<S: Shelf>(&mut self, shelf: &mut S, line: &Line) -> Result<(), WriteErr>
        ensures all { OnOk result ((S.state shelf.new).file self.old.name ≡ extended ((S.state shelf.old).file self.old.name) (written line.now)) }
        ensures part { OnErr result ((count : ℕ) × ((S.state shelf.new).file self.old.name ≡ extended ((S.state shelf.old).file self.old.name) (take count (written line.now)))) }
        ensures others { OthersStay (S.state shelf.old).file (S.state shelf.new).file self.old.name }
        ensures counted { OnOk result (self.new ≡ record self.old { size = self.old.size + length (written line.now) }) }
        ensures stays { OnErr result (self.new ≡ self.old) }
        ensures within { OnOk result (self.old.size + length (written line.now) ≤ self.old.limit) }
        ensures past { result ≡ Err WriteErr.M8 → self.old.limit < self.old.size + length (written line.now) }
        ensures untouched { result ≡ Err WriteErr.M8 → shelf.new ≡ shelf.old }
        ensures cause { IsCausedBy WriteErr.Fault (S.state shelf.old).write_faults (S.state shelf.new).write_faults self.old.name result }
        ensures reads { NoneFell (S.state shelf.old).read_faults (S.state shelf.new).read_faults }
    {
        self.text.clear();
        show_line(&mut self.text, line)?;
        self.text.push_str("\n")?;
        let size = self.text.len() as u64;
        if size > self.limit - self.size {
            return Err(WriteErr::M8);
        }
        shelf.append(self.name.as_str(), self.text.as_bytes())?;
        self.size += size;
        Ok(())
    }
}
