// Which literals of a learned clause follow from its others.

use crate::marks::Marks;
use std::alloc::{AllocError, Global};
use watched_propagation::{ClauseRef, Code, Propagator};

/// The clause minimization of MiniSat: a false literal may be left out where each way back from it along
/// the reasons ends in literals that are marked, or that no decision stands behind.
#[derive(Drop)]
pub(crate) struct Redundancy {
    stack: Vec<Code>,
}

/// A bit that stands for a level, one of 32.
pub(crate) fn level_bit(level: u32) -> u32 {
    1 << (level % 32)
}

impl Redundancy {
    pub fn new(alloc: Global) -> Redundancy {
        Redundancy {
            stack: Vec::new(alloc),
        }
    }

    /// Whether a literal may be left out. `levels` has the bits of the levels that the marks are of: a way
    /// that meets another level is not gone. What was found to follow stays marked.
    pub fn is_redundant(
        &mut self,
        propagator: &Propagator,
        marks: &mut Marks,
        levels: u32,
        code: Code,
    ) -> Result<bool, AllocError> {
        if propagator.cause(code).reason == ClauseRef::NONE {
            return Ok(false);
        }
        let before = marks.len();
        self.stack.clear();
        self.stack.push(code)?;
        for _ in 0..u64::MAX {
            let Some(top) = self.stack.pop() else {
                break;
            };
            if !self.follow(propagator, marks, levels, top)? {
                marks.keep(before);
                return Ok(false);
            }
        }
        Ok(true)
    }

    /// Goes one step back from a literal; whether all that it meets may follow.
    fn follow(
        &mut self,
        propagator: &Propagator,
        marks: &mut Marks,
        levels: u32,
        top: Code,
    ) -> Result<bool, AllocError> {
        for number in propagator.codes(propagator.cause(top).reason) {
            let code = Code { number: *number };
            let cause = propagator.cause(code);
            if marks.has(code) || cause.level == 0 || code.variable() == top.variable() {
                continue;
            }
            if cause.reason == ClauseRef::NONE || levels & level_bit(cause.level) == 0 {
                return Ok(false);
            }
            marks.mark(code)?;
            self.stack.push(code)?;
        }
        Ok(true)
    }
}
