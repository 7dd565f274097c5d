// What was derived, and from what.

use crate::clauses::Clauses;
use propagation_trail::{ClauseRef, Code, read, write};
use std::alloc::{AllocError, Global};

/// A clause that was derived.
#[derive(Clone, Copy)]
pub(crate) struct Derivation {
    pub clause: ClauseRef,
    /// Where its hints end: they begin where those of the derivation before it end.
    end: usize,
    /// The literal of it that the conflict made true, all others being false; none where it only states what unit propagation gives where
    /// no decision stands.
    pub asserted: Code,
}

const NO_DERIVATION: Derivation = Derivation {
    clause: ClauseRef::NONE,
    end: 0,
    asserted: Code::NONE,
};

/// The derivations in their order, each with its hints: the clauses from which unit propagation gives its clause.
#[derive(Drop)]
pub(crate) struct Derivations {
    steps: Vec<Derivation>,
    /// The hints of all, and of the one that `close` will close.
    pub hints: Vec<ClauseRef>,
}

impl Derivations {
    pub fn new(alloc: Global) -> Derivations {
        Derivations {
            steps: Vec::new(alloc),
            hints: Vec::new(alloc),
        }
    }

    /// How many there are, which is the number of the next.
    pub fn len(&self) -> usize {
        self.steps.len()
    }

    pub fn get(&self, number: usize) -> Derivation {
        read(self.steps.as_slice(), number, NO_DERIVATION)
    }

    /// Closes a derivation.
    pub fn close(&mut self, clause: ClauseRef, asserted: Code) -> Result<(), AllocError> {
        let end = self.hints.len();
        self.steps.push(Derivation {
            clause,
            end,
            asserted,
        })?;
        Ok(())
    }

    /// The hints of a derivation.
    fn hints(&self, number: usize) -> &[ClauseRef] {
        let start = if number == 0 {
            0
        } else {
            self.get(number.wrapping_sub(1)).end
        };
        let end = self.get(number).end;
        if start <= end && end <= self.hints.len() {
            &self.hints[start..end]
        } else {
            &[]
        }
    }

    /// Whether a hint of a derivation was taken back.
    fn has_dead_hint(&self, clauses: &Clauses, number: usize) -> bool {
        for hint in self.hints(number) {
            if clauses.is_dead(*hint) {
                return true;
            }
        }
        false
    }

    /// Takes back each clause that was derived from one that was taken back, and adds the true literals in whose lists it stands.
    pub fn kill_derived(
        &self,
        clauses: &mut Clauses,
        lists: &mut Vec<u32>,
    ) -> Result<(), AllocError> {
        for number in 0..self.steps.len() {
            let clause = self.get(number).clause;
            if clauses.is_dead(clause) || !self.has_dead_hint(clauses, number) {
                continue;
            }
            clauses.kill(clause);
            let codes = clauses.codes(clause);
            if codes.len() > 1 {
                let one = read(codes, 0, Code::NONE);
                let other = read(codes, 1, Code::NONE);
                lists.push(one.negated().number)?;
                lists.push(other.negated().number)?;
            }
        }
        Ok(())
    }

    /// Marks each derivation that a marked one rests on.
    pub fn mark_used(&self, clauses: &Clauses, used: &mut [bool]) {
        for number in (0..self.steps.len()).rev() {
            if !read(used, number, false) {
                continue;
            }
            for hint in self.hints(number) {
                write(used, clauses.derivation(*hint) as usize, true);
            }
        }
    }
}
