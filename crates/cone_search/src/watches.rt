// The clauses that watch each literal.

use crate::clauses::Clauses;
use propagation_trail::{ClauseRef, Code, read, write};
use std::alloc::{AllocError, Global};
use std::mem;

/// What the number of a clause of two literals is greater by in a watch.
const BINARY: u32 = 0x8000_0000;

/// The number of the clause in a watch.
const NUMBER: u32 = 0x7fff_ffff;

/// A clause, by its number, and another literal of it: where that one is true the clause need not be looked at.
#[derive(Clone, Copy)]
pub(crate) struct Watch {
    tagged: u32,
    pub blocker: Code,
}

impl Watch {
    pub const NONE: Watch = Watch {
        tagged: 0,
        blocker: Code::NONE,
    };

    #[inline(always)]
    pub fn clause(self) -> ClauseRef {
        ClauseRef {
            number: self.tagged & NUMBER,
        }
    }

    /// Whether the clause has the blocker and the watched literal alone.
    #[inline(always)]
    pub fn is_binary(self) -> bool {
        self.tagged & BINARY != 0
    }

    /// The watch with another blocker.
    #[inline(always)]
    pub fn with_blocker(self, blocker: Code) -> Watch {
        Watch {
            tagged: self.tagged,
            blocker,
        }
    }
}

/// For each literal the clauses to look at when it becomes true: they watch its negative.
#[derive(Drop)]
pub(crate) struct Watches {
    alloc: Global,
    lists: Vec<Vec<Watch>>,
}

impl Watches {
    /// Empty lists of the literals of so many variables.
    pub fn new(alloc: Global, variables: usize) -> Result<Watches, AllocError> {
        let count = variables.saturating_mul(2);
        let mut lists: Vec<Vec<Watch>> = Vec::with_capacity(alloc, count)?;
        for _made in 0..count {
            lists.push(Vec::new(alloc))?;
        }
        Ok(Watches { alloc, lists })
    }

    /// Lets a clause watch its first two literals, where it has as many.
    pub fn attach(&mut self, clause: ClauseRef, codes: &[Code]) -> Result<(), AllocError> {
        if codes.len() < 2 {
            return Ok(());
        }
        let tag = if codes.len() == 2 { BINARY } else { 0 };
        let tagged = clause.number | tag;
        let one = read(codes, 0, Code::NONE);
        let other = read(codes, 1, Code::NONE);
        let blocker = other;
        self.add(one, Watch { tagged, blocker })?;
        let blocker = one;
        self.add(other, Watch { tagged, blocker })
    }

    /// Adds a watch of a literal.
    #[inline(always)]
    pub fn add(&mut self, watched: Code, watch: Watch) -> Result<(), AllocError> {
        let place = watched.negated().place();
        if place < self.lists.len() {
            self.lists[place].push(watch)?;
        }
        Ok(())
    }

    /// Takes the list of a true literal out. It is to be put back.
    #[inline(always)]
    pub fn take(&mut self, code: Code) -> Vec<Watch> {
        let empty = Vec::new(self.alloc);
        let place = code.place();
        if place < self.lists.len() {
            mem::replace(&mut self.lists[place], empty)
        } else {
            empty
        }
    }

    /// Puts the list of a true literal back.
    #[inline(always)]
    pub fn put(&mut self, code: Code, list: Vec<Watch>) {
        let place = code.place();
        if place < self.lists.len() {
            self.lists[place] = list;
        }
    }

    /// Takes the dead clauses out of the list of a true literal.
    pub fn sweep(&mut self, code: Code, clauses: &Clauses) {
        let mut list = self.take(code);
        let mut kept = 0usize;
        for place in 0..list.len() {
            let watch = read(list.as_slice(), place, Watch::NONE);
            if !clauses.is_dead(watch.clause()) {
                write(list.as_mut_slice(), kept, watch);
                kept = kept.wrapping_add(1);
            }
        }
        list.truncate(kept);
        self.put(code, list);
    }
}
