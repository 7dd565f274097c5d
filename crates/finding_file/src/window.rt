// Bytes read ahead: each is looked at once for a line feed, and moved at most once for each line.
ghost use Rattle.std.specs.Prelude.{◌≡◌, ◌++◌, ◌≤◌, [], length, drop, OnOk, OnErr, MatchOption};
ghost use Rattle.finding_lines.specs.Reading.{LacksFeed};
ghost use Rattle.finding_file.specs.Searching.{IsFirstFeed};

use memchr::memchr;
use std::alloc::{AllocError, Global};
use std::marker::Model;

/// Bytes read ahead: contracts see the list of them.
#[derive(Drop)]
pub struct Window {
    alloc: Global,
    bytes: Vec<u8>,
    // those before this place are done with
    begin: usize,
    // those before this place were looked at
    searched: usize,
}

impl Model for Window {
    ghost use Rattle.std.specs.Prelude.{List, ℕ, drop};
    ghost use Rattle.finding_file.specs.Searching.{IsSearched};

    ghost Value = { List ℕ };

    ghost view = { λ w. drop w.begin w.bytes.items };

    ghost invariant = { λ w. IsSearched w.bytes.items w.begin w.searched };
}

impl Window {
    /// No byte.
    pub fn new(alloc: Global) -> Self
        ensures { result ≡ [] }
    {
        Window {
            alloc,
            bytes: Vec::new(alloc),
            begin: 0,
            searched: 0,
        }
    }

    /// The bytes.
    pub fn bytes(&self) -> &[u8]
        ensures { result.now ≡ self.now }
    {
        &self.bytes.as_slice()[self.begin..]
    }

    /// The first line feed.
    pub fn find_feed(&mut self) -> Option<usize>
        ensures found { MatchOption result (LacksFeed self.old) (λ place. IsFirstFeed self.old place) }
        ensures kept { self.new ≡ self.old }
    {
        match memchr(b'\n', &self.bytes.as_slice()[self.searched..]) {
            Some(more) => {
                self.searched += more;
                Some(self.searched - self.begin)
            }
            None => {
                self.searched = self.bytes.len();
                None
            }
        }
    }

    /// Is done with so many bytes.
    pub fn skip(&mut self, count: usize)
        requires { count ≤ length self.old }
        ensures { self.new ≡ drop count self.old }
    {
        self.begin += count;
        self.searched = self.begin;
    }

    // Lets the room of the bytes that are done with go.
    fn compact(&mut self) -> Result<(), AllocError>
        ensures { self.new ≡ self.old }
    {
        if self.begin > 0 {
            self.bytes = Vec::from_slice(self.alloc, &self.bytes.as_slice()[self.begin..])?;
            self.searched -= self.begin;
            self.begin = 0;
        }
        Ok(())
    }

    /// Adds bytes behind the others.
    pub fn add(&mut self, more: &[u8]) -> Result<(), AllocError>
        ensures ok { OnOk result (self.new ≡ self.old ++ more.now) }
        ensures err { OnErr result (self.new ≡ self.old) }
    {
        self.compact()?;
        self.bytes.extend_from_slice(more)
    }
}
