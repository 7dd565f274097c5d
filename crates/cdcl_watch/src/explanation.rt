// What derives a learned clause: the clauses that were unit on the way to the conflict, and the false one.

use crate::marks::Marks;
use clause_core::Hints;
use std::alloc::{AllocError, Global};
use watched_propagation::{ClauseRef, Code, Propagator};

/// The literals that the conflict rests on, and the reasons of them with their places on the propagator.
#[derive(Drop)]
pub(crate) struct Explanation {
    alloc: Global,
    marks: Marks,
    reasons: Vec<(u32, u32)>,
}

impl Explanation {
    pub fn new(alloc: Global, variables: u32) -> Result<Explanation, AllocError> {
        Ok(Explanation {
            alloc,
            marks: Marks::new(alloc, variables)?,
            reasons: Vec::new(alloc),
        })
    }

    /// The hints that derive the learned clause from the false clause: the reasons that are needed, in
    /// the order of the trail, and the false clause. What stands in the learned clause needs none.
    ///
    /// A literal that is left out of a learned clause without its reason here costs time only: the step
    /// is refused, and another is derived in its place.
    pub fn hints(
        &mut self,
        propagator: &Propagator,
        learned: &[Code],
        conflict: ClauseRef,
    ) -> Result<Hints, AllocError> {
        self.marks.keep(0);
        self.reasons.clear();
        for code in learned {
            self.marks.mark(*code)?;
        }
        let first = self.marks.len();
        self.meet(propagator, conflict)?;
        for place in first..propagator.values().len().saturating_mul(2) {
            let Some(code) = self.marks.get(place) else {
                break;
            };
            let cause = propagator.cause(code);
            self.reasons.push((cause.place, cause.reason.number))?;
            self.meet(propagator, cause.reason)?;
        }
        self.sorted(conflict.number)
    }

    /// Marks the literals of a clause.
    fn meet(&mut self, propagator: &Propagator, clause: ClauseRef) -> Result<(), AllocError> {
        for number in propagator.codes(clause) {
            let code = Code { number: *number };
            if !self.marks.has(code) {
                self.marks.mark(code)?;
            }
        }
        Ok(())
    }

    fn sorted(&mut self, last: u32) -> Result<Hints, AllocError> {
        self.reasons.sort_unstable();
        let mut hints = Hints::new(self.alloc);
        for (_, number) in self.reasons.iter() {
            hints.push(*number)?;
        }
        hints.push(last)?;
        Ok(hints)
    }
}
