// What a conflict teaches: the clause of its first unique implication point, made smaller, and what it rests on.

use crate::clauses::Clauses;
use crate::marks::{Mark, Marks};
use crate::redundancy::{Redundancy, level_bit};
use crate::trail::Trail;
use cdcl_watch::ActivityHeap;
use propagation_trail::{ClauseRef, Code, low, read, write};
use std::alloc::{AllocError, Global};

#[derive(Drop)]
pub(crate) struct Analysis {
    marks: Marks,
    redundancy: Redundancy,
    /// The literals of the learned clause: first the one that it will make true, then one of the highest level below.
    pub learned: Vec<Code>,
    /// The level at which the learned clause is unit.
    pub back: u32,
    /// The reasons that it rests on, with their places on the trail, in the order of these.
    pub needed: Vec<(u32, u32)>,
    /// The variables that it rests on and that no decision stands behind.
    pub zero: Vec<u32>,
    /// Variables of the clause that were left out, or that those rest on.
    stack: Vec<u32>,
    /// For each variable whether it is in the clause, or was taken from the stack; and which are so.
    settled: Vec<bool>,
    settled_list: Vec<u32>,
}

impl Analysis {
    pub fn new(alloc: Global, variables: usize) -> Result<Analysis, AllocError> {
        Ok(Analysis {
            marks: Marks::new(alloc, variables)?,
            redundancy: Redundancy::new(alloc),
            learned: Vec::new(alloc),
            back: 0,
            needed: Vec::new(alloc),
            zero: Vec::new(alloc),
            stack: Vec::new(alloc),
            settled: vec![in alloc; false; variables]?,
            settled_list: Vec::new(alloc),
        })
    }

    /// Learns from a false clause, where a decision stands.
    pub fn analyze(
        &mut self,
        clauses: &Clauses,
        trail: &Trail,
        heap: &mut ActivityHeap,
        conflict: ClauseRef,
    ) -> Result<(), AllocError> {
        self.learned.clear();
        self.needed.clear();
        self.zero.clear();
        self.stack.clear();
        self.learned.push(Code::NONE)?;
        let point = self.find_point(clauses, trail, heap, conflict)?;
        write(self.learned.as_mut_slice(), 0, point.negated());
        self.minimize(clauses, trail)?;
        self.gather_needed(clauses, trail)?;
        self.needed.sort_unstable();
        self.marks.clear();
        self.find_back(trail);
        Ok(())
    }

    /// Resolves along the trail, to the first unique implication point.
    fn find_point(
        &mut self,
        clauses: &Clauses,
        trail: &Trail,
        heap: &mut ActivityHeap,
        conflict: ClauseRef,
    ) -> Result<Code, AllocError> {
        let mut point = Code::NONE;
        let mut open = self.meet(clauses.codes(conflict), trail, heap)?;
        for place in (0..trail.len()).rev() {
            let code = trail.code_at(place);
            let cause = trail.cause(code.variable());
            if cause.level != trail.level() || self.marks.is_unmet(low(code.variable())) {
                continue;
            }
            point = code;
            open = open.wrapping_sub(1);
            if open == 0 {
                break;
            }
            self.needed.push((cause.place, cause.reason.number))?;
            let codes = clauses.codes(cause.reason);
            open = open.wrapping_add(self.meet(codes, trail, heap)?);
        }
        Ok(point)
    }

    /// Marks the variables of a clause, and puts those below the last level into the learned clause. Answers how many are of the last level.
    fn meet(
        &mut self,
        codes: &[Code],
        trail: &Trail,
        heap: &mut ActivityHeap,
    ) -> Result<u32, AllocError> {
        let mut count = 0u32;
        for code in codes {
            let variable = low(code.variable());
            if !self.marks.is_unmet(variable) {
                continue;
            }
            self.marks.set(variable, Mark::Met)?;
            let level = trail.cause(code.variable()).level;
            if level == 0 {
                self.zero.push(variable)?;
                continue;
            }
            heap.raise(variable);
            if level == trail.level() {
                count = count.wrapping_add(1);
            } else {
                self.learned.push(*code)?;
            }
        }
        Ok(count)
    }

    /// Leaves out the literals that follow from the others.
    fn minimize(&mut self, clauses: &Clauses, trail: &Trail) -> Result<(), AllocError> {
        let mut levels = 0u64;
        for place in 1..self.learned.len() {
            let code = read(self.learned.as_slice(), place, Code::NONE);
            levels |= level_bit(trail.cause(code.variable()).level);
        }
        let mut kept = 1usize;
        for place in 1..self.learned.len() {
            let code = read(self.learned.as_slice(), place, Code::NONE);
            if self.is_redundant(clauses, trail, levels, code)? {
                self.stack.push(low(code.variable()))?;
            } else {
                write(self.learned.as_mut_slice(), kept, code);
                kept = kept.wrapping_add(1);
            }
        }
        self.learned.truncate(kept);
        Ok(())
    }

    fn is_redundant(
        &mut self,
        clauses: &Clauses,
        trail: &Trail,
        levels: u64,
        code: Code,
    ) -> Result<bool, AllocError> {
        if trail.cause(code.variable()).reason == ClauseRef::NONE {
            return Ok(false);
        }
        let variable = low(code.variable());
        self.redundancy
            .is_redundant(clauses, trail, &mut self.marks, levels, variable)
    }

    /// Gathers what the literals that were left out rest on, down to the clause itself.
    fn gather_needed(&mut self, clauses: &Clauses, trail: &Trail) -> Result<(), AllocError> {
        for place in 0..self.learned.len() {
            let code = read(self.learned.as_slice(), place, Code::NONE);
            self.settle(low(code.variable()))?;
        }
        for _ in 0..u64::MAX {
            let Some(variable) = self.stack.pop() else {
                break;
            };
            if !read(self.settled.as_slice(), variable as usize, true) {
                self.settle(variable)?;
                self.need(clauses, trail, variable)?;
            }
        }
        for variable in self.settled_list.iter() {
            write(self.settled.as_mut_slice(), *variable as usize, false);
        }
        self.settled_list.clear();
        Ok(())
    }

    fn settle(&mut self, variable: u32) -> Result<(), AllocError> {
        write(self.settled.as_mut_slice(), variable as usize, true);
        self.settled_list.push(variable)?;
        Ok(())
    }

    /// The clause rests on a variable that is not in it.
    fn need(&mut self, clauses: &Clauses, trail: &Trail, variable: u32) -> Result<(), AllocError> {
        let cause = trail.cause(variable as usize);
        if cause.level == 0 {
            // One that the conflict met was put there when it was met.
            match self.marks.get(variable) {
                Mark::Met => {}
                _ => self.zero.push(variable)?,
            }
            return Ok(());
        }
        self.needed.push((cause.place, cause.reason.number))?;
        for code in clauses.codes(cause.reason) {
            let other = low(code.variable());
            if other != variable {
                self.stack.push(other)?;
            }
        }
        Ok(())
    }

    /// Puts a literal of the highest level below the last behind the first.
    fn find_back(&mut self, trail: &Trail) {
        let mut most = 1usize;
        self.back = 0;
        for place in 1..self.learned.len() {
            let code = read(self.learned.as_slice(), place, Code::NONE);
            let level = trail.cause(code.variable()).level;
            if level > self.back {
                self.back = level;
                most = place;
            }
        }
        let second = read(self.learned.as_slice(), 1, Code::NONE);
        let highest = read(self.learned.as_slice(), most, Code::NONE);
        write(self.learned.as_mut_slice(), 1, highest);
        write(self.learned.as_mut_slice(), most, second);
    }
}
