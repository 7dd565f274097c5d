ghost use Rattle.std.specs.Prelude.{◌≡◌, ◌++◌, ◌∷◌, [], OnErr, OnOk, false, length, slice_set, ◌≤◌};
ghost use Rattle.scan_model.specs.Verdicts.{size_below};
ghost use Rattle.queries.specs.Sets.{members};

use std::alloc::{AllocError, Global};
use std::marker::Model;

/// A set of candidates, by their numbers from 0: contracts see for each number whether it is in the set.
#[derive(Drop)]
pub struct CandidateSet {
    marks: Vec<bool>,
}

impl Model for CandidateSet {
    ghost use Rattle.std.specs.Prelude.{List, Bool};

    ghost Value = { List Bool };

    ghost view = { λ s. s.marks.items };
}

impl CandidateSet {
    /// No number, and none is told of.
    pub fn new(alloc: Global) -> Self
        ensures { result ≡ [] }
    {
        CandidateSet {
            marks: Vec::new(alloc),
        }
    }

    /// Whether a number is in the set.
    #[inline]
    pub fn has(&self, number: usize) -> bool
        ensures { result ≡ members self.now number }
    {
        self.marks.get(number).copied().unwrap_or(false)
    }

    /// How many numbers are told of: those from there on are not in the set.
    pub fn count(&self) -> usize
        ensures { result ≡ length self.now }
    {
        self.marks.len()
    }

    /// Tells of the next number whether it is in the set.
    pub fn push(&mut self, is_in: bool) -> Result<(), AllocError>
        ensures ok { OnOk result (self.new ≡ self.old ++ is_in ∷ []) }
        ensures err { OnErr result (self.new ≡ self.old) }
    {
        match self.marks.push(is_in) {
            Ok(()) => Ok(()),
            Err(_) => Err(AllocError),
        }
    }

    /// Takes a number out of the set.
    pub fn remove(&mut self, number: usize)
        ensures { self.new ≡ slice_set self.old number false }
    {
        if number < self.marks.len() {
            self.marks[number] = false;
        }
    }

    /// How many numbers below a bound are in the set.
    pub fn size(&self, below: usize) -> usize
        ensures size { result ≡ size_below below (members self.now) }
        ensures few { result ≤ below }
    {
        let mut size = 0;
        for number in 0..below {
            if self.has(number) {
                size += 1;
            }
        }
        size
    }
}
