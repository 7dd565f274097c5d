// What a conflict teaches: the clause of its first unique implication point, made smaller.

use crate::marks::Marks;
use crate::order::Order;
use crate::redundancy::{Redundancy, level_bit};
use std::alloc::{AllocError, Global};
use watched_propagation::{ClauseRef, Code, Propagator, low, read, write};

#[derive(Drop)]
pub(crate) struct Analysis {
    marks: Marks,
    redundancy: Redundancy,
    /// The literals of the learned clause: first the one that it will make true, then one of the highest
    /// level below.
    learned: Vec<Code>,
    back: u32,
}

impl Analysis {
    pub fn new(alloc: Global, variables: u32) -> Result<Analysis, AllocError> {
        Ok(Analysis {
            marks: Marks::new(alloc, variables)?,
            redundancy: Redundancy::new(alloc),
            learned: Vec::new(alloc),
            back: 0,
        })
    }

    pub fn learned(&self) -> &[Code] {
        self.learned.as_slice()
    }

    /// The level at which the learned clause is unit.
    pub fn back(&self) -> u32 {
        self.back
    }

    /// Learns from a false clause. Where no decision stands nothing is left of it, and the formula has no solution.
    pub fn analyze(
        &mut self,
        propagator: &Propagator,
        order: &mut Order,
        conflict: ClauseRef,
    ) -> Result<(), AllocError> {
        self.learned.clear();
        self.back = 0;
        if propagator.level() == 0 {
            order.goals.end();
            return Ok(());
        }
        self.learned.push(Code::NONE)?;
        let point = self.find_point(propagator, order, conflict)?;
        write(self.learned.as_mut_slice(), 0, point.negated());
        self.minimize(propagator)?;
        self.marks.keep(0);
        self.raise_reasons(propagator, order);
        self.find_back(propagator);
        Ok(())
    }

    /// Learns from a false clause that not all the decisions stand together that it rests on. Where no decision stands nothing is left
    /// of it.
    pub fn negate_decisions(
        &mut self,
        propagator: &Propagator,
        conflict: ClauseRef,
    ) -> Result<(), AllocError> {
        self.learned.clear();
        self.back = 0;
        if propagator.level() == 0 {
            return Ok(());
        }
        self.learned.push(Code::NONE)?;
        self.mark_all(propagator, conflict)?;
        for place in 0..propagator.len() {
            let Some(code) = self.marks.get(place) else {
                break;
            };
            let cause = propagator.cause(code);
            if cause.reason != ClauseRef::NONE {
                self.mark_all(propagator, cause.reason)?;
            } else if cause.level == propagator.level() {
                write(self.learned.as_mut_slice(), 0, code);
            } else {
                self.learned.push(code)?;
            }
        }
        self.marks.keep(0);
        self.find_back(propagator);
        Ok(())
    }

    /// Marks the variables of a clause that depend on a decision.
    fn mark_all(&mut self, propagator: &Propagator, clause: ClauseRef) -> Result<(), AllocError> {
        for number in propagator.codes(clause) {
            let code = Code { number: *number };
            if propagator.cause(code).level != 0 && !self.marks.has(code) {
                self.marks.mark(code)?;
            }
        }
        Ok(())
    }

    /// Resolves along the trail, to the first unique implication point.
    fn find_point(
        &mut self,
        propagator: &Propagator,
        order: &mut Order,
        conflict: ClauseRef,
    ) -> Result<Code, AllocError> {
        let mut point = Code::NONE;
        let mut open = self.meet(propagator, order, conflict)?;
        for place in (0..propagator.len()).rev() {
            let code = propagator.literal_at(place);
            if !self.marks.has(code) {
                continue;
            }
            point = code;
            open = open.wrapping_sub(1);
            if open == 0 {
                break;
            }
            open = open.wrapping_add(self.meet(propagator, order, propagator.cause(code).reason)?);
        }
        Ok(point)
    }

    /// Marks the variables of a clause that depend on a decision, and puts those below the last level into
    /// the learned clause. Answers how many are of the last level.
    fn meet(
        &mut self,
        propagator: &Propagator,
        order: &mut Order,
        clause: ClauseRef,
    ) -> Result<u32, AllocError> {
        let mut count = 0u32;
        for number in propagator.codes(clause) {
            let code = Code { number: *number };
            let level = propagator.cause(code).level;
            if level == 0 || self.marks.has(code) {
                continue;
            }
            self.marks.mark(code)?;
            order.heap.raise(low(code.variable()));
            if level == propagator.level() {
                count = count.wrapping_add(1);
            } else {
                self.learned.push(code)?;
            }
        }
        Ok(count)
    }

    /// Counts the variables of the clauses that gave the variables of the learned clause their values: they come to a
    /// conflict soon (the reason side of MapleSAT). It takes a fifth to four fifths of the conflicts away.
    fn raise_reasons(&self, propagator: &Propagator, order: &mut Order) {
        for learned in self.learned.iter() {
            for number in propagator.codes(propagator.cause(*learned).reason) {
                let code = Code { number: *number };
                order.heap.raise(low(code.variable()));
            }
        }
    }

    /// Leaves out the literals that follow from the others.
    fn minimize(&mut self, propagator: &Propagator) -> Result<(), AllocError> {
        let mut levels = 0u32;
        for code in self.learned.iter() {
            levels |= level_bit(propagator.cause(*code).level);
        }
        let mut kept = 1usize;
        for place in 1..self.learned.len() {
            let code = read(self.learned.as_slice(), place, Code::NONE);
            let marks = &mut self.marks;
            if !self
                .redundancy
                .is_redundant(propagator, marks, levels, code)?
            {
                write(self.learned.as_mut_slice(), kept, code);
                kept = kept.wrapping_add(1);
            }
        }
        self.learned.truncate(kept);
        Ok(())
    }

    /// Puts a literal of the highest level below the last behind the first.
    fn find_back(&mut self, propagator: &Propagator) {
        for place in 1..self.learned.len() {
            let code = read(self.learned.as_slice(), place, Code::NONE);
            let level = propagator.cause(code).level;
            if level > self.back {
                self.back = level;
                let second = read(self.learned.as_slice(), 1, Code::NONE);
                write(self.learned.as_mut_slice(), 1, code);
                write(self.learned.as_mut_slice(), place, second);
            }
        }
    }
}
