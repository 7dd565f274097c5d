// The clauses of a search, one behind the other: those of gates, facts, and what was derived from them.

use propagation_trail::{ClauseRef, Code, low, read, write};
use std::alloc::{AllocError, Global};

/// Of a clause that was not derived: the number of no derivation.
pub(crate) const NOT_DERIVED: u32 = u32::MAX;

/// Where the literals of a clause stand, and how many they are.
#[derive(Clone, Copy)]
struct Span {
    start: u32,
    count: u32,
}

const NO_SPAN: Span = Span { start: 0, count: 0 };

#[derive(Drop)]
pub(crate) struct Clauses {
    codes: Vec<Code>,
    spans: Vec<Span>,
    /// For each clause the number of its derivation.
    derivations: Vec<u32>,
    /// Whether a clause was taken back.
    dead: Vec<bool>,
}

impl Clauses {
    pub fn new(alloc: Global) -> Clauses {
        Clauses {
            codes: Vec::new(alloc),
            spans: Vec::new(alloc),
            derivations: Vec::new(alloc),
            dead: Vec::new(alloc),
        }
    }

    /// Adds a clause, and the number of its derivation.
    pub fn push(&mut self, codes: &[Code], derivation: u32) -> Result<ClauseRef, AllocError> {
        let place = low(self.spans.len());
        let start = low(self.codes.len());
        self.codes.extend_from_slice(codes)?;
        let count = low(codes.len());
        self.spans.push(Span { start, count })?;
        self.derivations.push(derivation)?;
        self.dead.push(false)?;
        Ok(ClauseRef::at(place))
    }

    /// The literals of a clause.
    #[inline(always)]
    pub fn codes(&self, clause: ClauseRef) -> &[Code] {
        let span = read(self.spans.as_slice(), clause.place(), NO_SPAN);
        let start = span.start as usize;
        let end = start.wrapping_add(span.count as usize);
        if start <= end && end <= self.codes.len() {
            &self.codes[start..end]
        } else {
            &[]
        }
    }

    /// The literals of a clause, whose order may be changed.
    #[inline(always)]
    pub fn codes_mut(&mut self, clause: ClauseRef) -> &mut [Code] {
        let span = read(self.spans.as_slice(), clause.place(), NO_SPAN);
        let start = span.start as usize;
        let end = start.wrapping_add(span.count as usize);
        if start <= end && end <= self.codes.len() {
            &mut self.codes[start..end]
        } else {
            &mut []
        }
    }

    /// The number of the clause's derivation.
    pub fn derivation(&self, clause: ClauseRef) -> u32 {
        read(self.derivations.as_slice(), clause.place(), NOT_DERIVED)
    }

    #[inline(always)]
    pub fn is_dead(&self, clause: ClauseRef) -> bool {
        read(self.dead.as_slice(), clause.place(), false)
    }

    /// Takes a clause back.
    pub fn kill(&mut self, clause: ClauseRef) {
        write(self.dead.as_mut_slice(), clause.place(), true);
    }
}
