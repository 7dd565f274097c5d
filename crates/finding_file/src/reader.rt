// Lines read one after another, in pieces.
ghost use Rattle.std.specs.Prelude.{false, ◌≡◌, ◌≢◌, ◌==◌, ◌+◌, ◌++◌, ◌<◌, ◌≤◌, length, take, IfOk, IfSome, OnErr, OnOk, MatchOption, MatchResult};
ghost use Rattle.outside.specs.Causes.{HasFileCause, NoneFell};
ghost use Rattle.finding_lines.specs.Spelling.{written};
ghost use Rattle.finding_lines.specs.Reading.{ReadsLine};

use crate::errors::ReadErr;
use crate::window::Window;
use finding_lines::{Line, read_line};
use outside::{OutErr, Shelf};
use std::alloc::{AllocError, Global};
use std::marker::Model;

/// A reader of a finding. It reads at most so many bytes in one call as `new` is told, and keeps one line.
#[derive(Drop)]
pub struct FindingReader {
    alloc: Global,
    name: String,
    limit: u64,
    at: u64,
    number: u64,
    window: Window,
    piece: usize,
}

impl Model for FindingReader {
    ghost use Rattle.std.specs.Prelude.{string_bytes};
    ghost use Rattle.finding_file.specs.Reading.{Reading};
    ghost use Rattle.finding_file.specs.Places.{IsInPlace};

    ghost Value = { Reading };

    ghost view = { λ r. record { name = string_bytes r.name; limit = r.limit; at = r.at; number = r.number; held = r.window } };

    ghost invariant = { λ r. IsInPlace r.limit r.at r.number r.window r.piece };
}

/// What a read of one more piece met.
#[derive(Clone, Copy)]
enum Piece {
    /// More bytes.
    Added,
    /// The file's end.
    End,
    /// A byte past the limit.
    Past,
}

/// What stands ahead.
#[derive(Clone, Copy)]
enum Found {
    /// A line feed behind so many bytes.
    Feed(usize),
    /// The file's end.
    End,
    /// The first byte past the limit.
    Past,
}

impl FindingReader {
    ghost use Rattle.finding_file.specs.Reading.{reading_at_start, rest_of, Agrees, IsSamePlace, IsPast};
    ghost use Rattle.finding_file.specs.Ahead.{ahead};
    ghost use Rattle.finding_file.specs.Answering.{IsAnswer};
    ghost use Rattle.finding_file.specs.Causes.{IsCausedBy};
    ghost use Rattle.finding_file.specs.Places.{IsPiece, MeetsPiece, IsFound, MeetsFound, IsSkipped};
    ghost use Rattle.finding_lines.specs.Reading.{LacksFeed};
    ghost use Rattle.finding_file.specs.Searching.{IsFirstFeed};

    /// A reader before the first line. It touches no file.
    pub fn new(alloc: Global, name: &str, limit: u64, piece: usize) -> Result<Self, AllocError>
        requires { 0 < piece }
        ensures { IfOk result (λ r. r ≡ reading_at_start name.now limit) }
    {
        Ok(FindingReader {
            alloc,
            name: String::from_str(alloc, name)?,
            limit,
            at: 0,
            number: 1,
            window: Window::new(alloc),
            piece,
        })
    }

    // The first line feed in what is held.
    fn find_feed(&mut self) -> Option<usize>
        ensures found { MatchOption result (LacksFeed self.old.held) (λ place. IsFirstFeed self.old.held place) }
        ensures kept { self.new ≡ self.old }
        ensures within { self.new.at + length self.new.held ≤ self.new.limit }
    {
        self.window.find_feed()
    }

    fn holds_nothing(&self) -> bool
        ensures { result ≡ (length self.now.held == 0) }
    {
        self.window.bytes().is_empty()
    }

    fn number(&self) -> u64
        ensures { result ≡ self.now.number }
    {
        self.number
    }

    // Reads one more piece.
    fn read_piece<S: Shelf>(&mut self, shelf: &mut S) -> Result<Piece, OutErr>
        requires agrees { IfSome ((S.state shelf.old).file self.old.name) (Agrees self.old) }
        requires unfailed { (S.state shelf.old).read_failed ≡ false }
        ensures place { IsSamePlace self.old self.new }
        ensures agrees { IfSome ((S.state shelf.old).file self.old.name) (Agrees self.new) }
        ensures within { self.new.at + length self.new.held ≤ self.new.limit }
        ensures piece { IfOk result (IsPiece self.old self.new) }
        ensures met { IfSome ((S.state shelf.old).file self.old.name) (λ bytes. IfOk result (MeetsPiece self.new bytes)) }
        ensures kept { (S.state shelf.new).file ≡ (S.state shelf.old).file }
        ensures cause { HasFileCause (S.state shelf.old).read_faults (S.state shelf.new).read_faults self.old.name result }
        ensures writes { NoneFell (S.state shelf.old).write_faults (S.state shelf.new).write_faults }
        ensures unfailed { OnOk result ((S.state shelf.new).read_failed ≡ false) }
    {
        let from = self.at + self.window.bytes().len() as u64;
        let room = self.limit - from;
        let most = room.min(self.piece as u64).min(65536).max(1) as usize;
        let mut buffer = [0u8; 65536];
        let count = shelf.read_at(self.name.as_str(), from, &mut buffer[..most])?;
        if count == 0 {
            return Ok(Piece::End);
        }
        if room == 0 {
            return Ok(Piece::Past);
        }
        self.window.add(&buffer[..count])?;
        Ok(Piece::Added)
    }

    // Reads on to the next line feed.
    fn find_line<S: Shelf>(&mut self, shelf: &mut S) -> Result<Found, OutErr>
        requires agrees { IfSome ((S.state shelf.old).file self.old.name) (Agrees self.old) }
        requires unfailed { (S.state shelf.old).read_failed ≡ false }
        ensures place { IsSamePlace self.old self.new }
        ensures agrees { IfSome ((S.state shelf.old).file self.old.name) (Agrees self.new) }
        ensures within { self.new.at + length self.new.held ≤ self.new.limit }
        ensures found { IfOk result (IsFound self.new) }
        ensures met { IfSome ((S.state shelf.old).file self.old.name) (λ bytes. IfOk result (MeetsFound self.new bytes)) }
        ensures kept { (S.state shelf.new).file ≡ (S.state shelf.old).file }
        ensures cause { HasFileCause (S.state shelf.old).read_faults (S.state shelf.new).read_faults self.old.name result }
        ensures writes { NoneFell (S.state shelf.old).write_faults (S.state shelf.new).write_faults }
        ensures unfailed { OnOk result ((S.state shelf.new).read_failed ≡ false) }
    {
        'pieces: loop {
            if let Some(end) = self.find_feed() {
                return Ok(Found::Feed(end));
            }
            match self.read_piece(shelf)? {
                Piece::Added => {}
                Piece::End => return Ok(Found::End),
                Piece::Past => return Ok(Found::Past),
            }
        }
    }

    // Reads the line before the first line feed, and goes behind it.
    fn take_line(&mut self, end: usize) -> Result<Option<Line>, AllocError>
        requires { IsFirstFeed self.old.held end }
        ensures read { IfOk result (λ answer. ReadsLine (take end self.old.held) answer) }
        ensures stays { IfOk result (λ answer. MatchOption answer (self.new ≡ self.old) (λ line. IsSkipped self.old self.new line)) }
        ensures err { OnErr result (self.new ≡ self.old) }
    {
        let Some(line) = read_line(self.alloc, &self.window.bytes()[..end])? else {
            return Ok(None);
        };
        self.window.skip(end + 1);
        self.at += end as u64 + 1;
        self.number += 1;
        Ok(Some(line))
    }

    /// The next line, or none at the file's end. After an error the reader stands before the same line.
    pub fn next<S: Shelf>(&mut self, shelf: &mut S) -> Result<Option<Line>, ReadErr>
        requires agrees { IfSome ((S.state shelf.old).file self.old.name) (Agrees self.old) }
        requires unfailed { (S.state shelf.old).read_failed ≡ false }
        ensures answer { IfSome ((S.state shelf.old).file self.old.name) (λ bytes. IsAnswer self.old (ahead (rest_of self.old bytes)) result) }
        ensures rest { IfSome ((S.state shelf.old).file self.old.name) (λ bytes. IfOk result (λ answer. IfSome answer (λ line. rest_of self.old bytes ≡ written line ++ rest_of self.new bytes))) }
        ensures place { MatchResult result (λ answer. MatchOption answer (IsSamePlace self.old self.new) (λ line. IsPast self.old self.new line)) (λ _. IsSamePlace self.old self.new) }
        ensures agrees { IfSome ((S.state shelf.old).file self.old.name) (Agrees self.new) }
        ensures kept { (S.state shelf.new).file ≡ (S.state shelf.old).file }
        ensures cause { IsCausedBy ReadErr.Fault (S.state shelf.old).read_faults (S.state shelf.new).read_faults self.old.name result }
        ensures writes { NoneFell (S.state shelf.old).write_faults (S.state shelf.new).write_faults }
        ensures unfailed { result ≢ Err ReadErr.Fault → result ≢ Err ReadErr.Memory → (S.state shelf.new).read_failed ≡ false }
    {
        match self.find_line(shelf)? {
            Found::Past => Err(ReadErr::M8),
            Found::End => {
                if self.holds_nothing() {
                    Ok(None)
                } else {
                    Err(ReadErr::Unended(self.number()))
                }
            }
            Found::Feed(end) => match self.take_line(end)? {
                Some(line) => Ok(Some(line)),
                None => Err(ReadErr::Spelling(self.number())),
            },
        }
    }
}
