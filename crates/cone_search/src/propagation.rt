// Unit propagation: everywhere where no decision stands, and in the cone alone where one does.

use crate::clauses::Clauses;
use crate::cones::Cone;
use crate::trail::Trail;
use crate::watches::{Watch, Watches};
use clause_core::Truth;
use propagation_trail::{ClauseRef, Code, read, write};
use std::alloc::{AllocError, Global};

/// The clauses and what is true by them.
#[derive(Drop)]
pub(crate) struct Propagator {
    pub clauses: Clauses,
    pub watches: Watches,
    pub trail: Trail,
    pub cone: Cone,
}

/// What becomes of a watch.
#[derive(Clone, Copy)]
enum Visited {
    /// It stays in its list so.
    Kept(Watch),
    /// Its clause watches another literal.
    Moved,
    /// It stays, and its clause is false.
    Falsified(Watch),
}

/// What becomes of a clause of three literals or more.
#[derive(Clone, Copy)]
enum Settled {
    /// This literal of it is true.
    Satisfied(Code),
    /// It watches the second literal in place of the one that became false. The first is the other one that it watches.
    Moved(Code, Code),
    /// All its literals but this one are false.
    Last(Code),
}

/// Looks for another literal that a clause may watch.
#[inline(always)]
fn settle(codes: &mut [Code], trail: &Trail, falsified: Code, blocker: Code) -> Settled {
    let mut first = read(codes, 0, Code::NONE);
    if first.number == falsified.number {
        first = read(codes, 1, Code::NONE);
        write(codes, 0, first);
        write(codes, 1, falsified);
    }
    if first.number != blocker.number && trail.is_true(first) {
        return Settled::Satisfied(first);
    }
    for place in 2..codes.len() {
        let code = read(codes, place, Code::NONE);
        if !trail.is_false(code) {
            write(codes, 1, code);
            write(codes, place, falsified);
            return Settled::Moved(first, code);
        }
    }
    Settled::Last(first)
}

impl Propagator {
    /// No clause, and no true literal, of so many variables.
    pub fn new(alloc: Global, variables: usize) -> Result<Propagator, AllocError> {
        Ok(Propagator {
            clauses: Clauses::new(alloc),
            watches: Watches::new(alloc, variables)?,
            trail: Trail::new(alloc, variables)?,
            cone: Cone::new(alloc, variables)?,
        })
    }

    /// Adds a clause that watches its first two literals.
    pub fn attach(&mut self, codes: &[Code], derivation: u32) -> Result<ClauseRef, AllocError> {
        let clause = self.clauses.push(codes, derivation)?;
        self.watches.attach(clause, codes)?;
        Ok(clause)
    }

    /// Propagates to the end, or to a false clause.
    pub fn propagate(&mut self) -> Result<ClauseRef, AllocError> {
        let is_within = self.trail.level() > 0;
        for _ in 0..u64::MAX {
            let Some(code) = self.trail.next() else {
                break;
            };
            let conflict = self.visit(code, is_within)?;
            if conflict != ClauseRef::NONE {
                self.trail.stop();
                return Ok(conflict);
            }
        }
        Ok(ClauseRef::NONE)
    }

    /// Visits the clauses that watch the negative of a true literal. The answer is one that is false.
    fn visit(&mut self, code: Code, is_within: bool) -> Result<ClauseRef, AllocError> {
        let mut list = self.watches.take(code);
        let mut conflict = ClauseRef::NONE;
        let mut kept = 0usize;
        let mut next = list.len();
        for place in 0..list.len() {
            let watch = read(list.as_slice(), place, Watch::NONE);
            match self.visit_watch(watch, code.negated(), is_within)? {
                Visited::Moved => {}
                Visited::Kept(stays) => {
                    write(list.as_mut_slice(), kept, stays);
                    kept = kept.wrapping_add(1);
                }
                Visited::Falsified(stays) => {
                    write(list.as_mut_slice(), kept, stays);
                    kept = kept.wrapping_add(1);
                    conflict = stays.clause();
                    next = place.wrapping_add(1);
                    break;
                }
            }
        }
        for place in next..list.len() {
            let watch = read(list.as_slice(), place, Watch::NONE);
            write(list.as_mut_slice(), kept, watch);
            kept = kept.wrapping_add(1);
        }
        list.truncate(kept);
        self.watches.put(code, list);
        Ok(conflict)
    }

    /// Visits a clause by its watch. Where a decision stands, a clause with an open literal outside of the cone is left alone.
    #[inline(always)]
    fn visit_watch(
        &mut self,
        watch: Watch,
        falsified: Code,
        is_within: bool,
    ) -> Result<Visited, AllocError> {
        let blocker = watch.blocker;
        match self.trail.value(blocker) {
            Truth::True => {
                return Ok(Visited::Kept(watch));
            }
            Truth::Open => {
                if is_within && !self.cone.has(blocker) {
                    return Ok(Visited::Kept(watch));
                }
                if watch.is_binary() {
                    self.trail.assign(blocker, watch.clause())?;
                    return Ok(Visited::Kept(watch));
                }
            }
            Truth::False => {
                if watch.is_binary() {
                    return Ok(Visited::Falsified(watch));
                }
            }
        }
        self.visit_clause(watch, falsified, is_within)
    }

    /// Visits a clause of three literals or more.
    #[inline(always)]
    fn visit_clause(
        &mut self,
        watch: Watch,
        falsified: Code,
        is_within: bool,
    ) -> Result<Visited, AllocError> {
        let clause = watch.clause();
        let codes = self.clauses.codes_mut(clause);
        match settle(codes, &self.trail, falsified, watch.blocker) {
            Settled::Satisfied(first) => Ok(Visited::Kept(watch.with_blocker(first))),
            Settled::Moved(first, code) => {
                self.watches.add(code, watch.with_blocker(first))?;
                Ok(Visited::Moved)
            }
            Settled::Last(first) => {
                let stays = watch.with_blocker(first);
                if self.trail.is_false(first) {
                    return Ok(Visited::Falsified(stays));
                }
                if !is_within || self.cone.has(first) {
                    self.trail.assign(first, clause)?;
                }
                Ok(Visited::Kept(stays))
            }
        }
    }
}
