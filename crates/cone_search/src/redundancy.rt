// Which literals of a learned clause follow from its others.

use crate::clauses::Clauses;
use crate::marks::{Mark, Marks};
use crate::trail::Trail;
use propagation_trail::{ClauseRef, Code, low, read};
use std::alloc::{AllocError, Global};

/// A variable whose reason is gone through, and the place in it that is next.
#[derive(Clone, Copy)]
struct Visit {
    variable: u32,
    next: usize,
}

/// What is seen in the rest of a variable's reason.
#[derive(Clone, Copy)]
enum Seen {
    /// All its variables follow.
    Implied,
    /// One does not.
    Free,
    /// It is open whether this one follows; the place behind it is next.
    Deeper(u32, usize),
}

/// The clause minimization of MiniSat: a false literal may be left out where each way back from it along the reasons ends in variables that
/// are met, or that no decision stands behind. What was found out of a variable stays marked.
#[derive(Drop)]
pub(crate) struct Redundancy {
    stack: Vec<Visit>,
}

/// A bit that stands for a level, one of 64.
#[inline(always)]
pub(crate) fn level_bit(level: u32) -> u64 {
    1u64 << (level % 64)
}

/// Looks at the rest of a variable's reason.
#[inline(always)]
fn look(clauses: &Clauses, trail: &Trail, marks: &Marks, levels: u64, visit: Visit) -> Seen {
    let codes = clauses.codes(trail.cause(visit.variable as usize).reason);
    for place in visit.next..codes.len() {
        let variable = low(read(codes, place, Code::NONE).variable());
        let cause = trail.cause(variable as usize);
        if variable == visit.variable || cause.level == 0 {
            continue;
        }
        match marks.get(variable) {
            Mark::Met | Mark::Implied => {
                continue;
            }
            Mark::Free => {
                return Seen::Free;
            }
            Mark::Unmet => {}
        }
        if cause.reason == ClauseRef::NONE || levels & level_bit(cause.level) == 0 {
            return Seen::Free;
        }
        return Seen::Deeper(variable, place.wrapping_add(1));
    }
    Seen::Implied
}

impl Redundancy {
    pub fn new(alloc: Global) -> Redundancy {
        Redundancy {
            stack: Vec::new(alloc),
        }
    }

    /// Whether a variable follows. `levels` has the bits of the levels that the learned clause is of: a way that meets another level is not
    /// gone.
    pub fn is_redundant(
        &mut self,
        clauses: &Clauses,
        trail: &Trail,
        marks: &mut Marks,
        levels: u64,
        variable: u32,
    ) -> Result<bool, AllocError> {
        self.stack.clear();
        self.stack.push(Visit { variable, next: 0 })?;
        for _ in 0..u64::MAX {
            let Some(visit) = self.stack.pop() else {
                break;
            };
            match look(clauses, trail, marks, levels, visit) {
                Seen::Implied => marks.set(visit.variable, Mark::Implied)?,
                Seen::Deeper(variable, next) => {
                    // The reason of that one first, and then the rest of this one.
                    self.stack.push(Visit { next, ..visit })?;
                    self.stack.push(Visit { variable, next: 0 })?;
                }
                Seen::Free => {
                    // None of those that are gone through follows.
                    marks.set(visit.variable, Mark::Free)?;
                    for above in self.stack.iter() {
                        marks.set(above.variable, Mark::Free)?;
                    }
                    return Ok(false);
                }
            }
        }
        Ok(true)
    }
}
