// What a conflict teaches: the clause of its first unique implication point, and what derives it.

use crate::order::Order;
use crate::table::{read, write};
use crate::trail::Trail;
use clause_core::{Clause, Hints, Lit, Step, clause_at};
use std::alloc::{AllocError, Global};

/// The variables that the conflict met, and what was gathered from them, backwards along the trail.
#[derive(Drop)]
pub(crate) struct Analysis {
    alloc: Global,
    seen: Vec<bool>,
    /// How many seen variables of the last level are not resolved yet.
    open: u32,
    learned: Vec<Lit>,
    reasons: Vec<u32>,
    back: u32,
}

impl Analysis {
    pub fn new(alloc: Global, variables: u32) -> Result<Analysis, AllocError> {
        Ok(Analysis {
            alloc,
            seen: vec![in alloc; false; variables as usize + 1]?,
            open: 0,
            learned: Vec::new(alloc),
            reasons: Vec::new(alloc),
            back: 0,
        })
    }

    /// The level at which the learned clause is unit.
    pub fn back(&self) -> u32 {
        self.back
    }

    /// The step that learns from the conflict at the clause of this number.
    pub fn analyze(
        &mut self,
        held: &[Clause],
        trail: &Trail,
        order: &mut Order,
        conflict: u32,
    ) -> Result<Step, AllocError> {
        self.clear();
        self.see(held, trail, order, conflict);
        for place in (0..trail.len()).rev() {
            self.visit(held, trail, order, trail.literal_at(place))?;
        }
        let clause = Clause::from_set(self.alloc, self.learned.as_slice())?;
        let hints = self.hints(conflict)?;
        Ok(Step { clause, hints })
    }

    fn clear(&mut self) {
        self.seen.as_mut_slice().fill(false);
        self.learned.clear();
        self.reasons.clear();
        self.open = 0;
        self.back = 0;
    }

    /// Marks the variables of the clause of this number.
    fn see(&mut self, held: &[Clause], trail: &Trail, order: &mut Order, number: u32) {
        let Some(clause) = clause_at(held, number) else {
            return;
        };
        for literal in clause.literals() {
            if self.is_seen(*literal) {
                continue;
            }
            write(self.seen.as_mut_slice(), literal.variable as usize, true);
            order.raise(literal.variable);
            if trail.cause(*literal).level == trail.level() {
                self.open = self.open.wrapping_add(1);
            }
        }
    }

    fn is_seen(&self, literal: Lit) -> bool {
        read(self.seen.as_slice(), literal.variable as usize, true)
    }

    /// Resolves a seen literal with its reason, or learns its negation: that of a level below the last,
    /// and that of the last level which alone is left, the first unique implication point.
    fn visit(
        &mut self,
        held: &[Clause],
        trail: &Trail,
        order: &mut Order,
        literal: Lit,
    ) -> Result<(), AllocError> {
        if !self.is_seen(literal) {
            return Ok(());
        }
        let cause = trail.cause(literal);
        let is_last_level = cause.level == trail.level();
        if cause.level == 0 || (is_last_level && self.open > 1) {
            self.reasons.push(cause.reason)?;
            self.see(held, trail, order, cause.reason);
            self.open = self.open.wrapping_sub(if is_last_level { 1 } else { 0 });
        } else {
            self.learned.push(literal.negated())?;
            if !is_last_level && cause.level > self.back {
                self.back = cause.level;
            }
        }
        Ok(())
    }

    /// The reasons in the order of the trail, and the clause that is false at last.
    fn hints(&self, conflict: u32) -> Result<Hints, AllocError> {
        let mut hints = Hints::new(self.alloc);
        for reason in self.reasons.iter().rev() {
            hints.push(*reason)?;
        }
        hints.push(conflict)?;
        Ok(hints)
    }
}
