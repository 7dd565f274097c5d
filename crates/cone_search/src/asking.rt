// Questions: whether a literal holds by what is known.

use crate::restarts::Restarts;
use crate::search::{Asked, ConeSearch};
use crate::units::positive;
use clause_core::Lit;
use propagation_trail::{ClauseRef, Code, read};
use std::alloc::AllocError;

/// What is done where nothing is left to propagate.
#[derive(Clone, Copy)]
enum Turn {
    /// The question has its answer.
    End(Asked),
    /// This literal is decided.
    Decide(Code),
    /// All decisions are taken back.
    GoBack,
}

impl<'p> ConeSearch<'p> {
    /// Asks whether a literal holds, by at most so many conflicts.
    pub fn ask(&mut self, lit: Lit, budget: u64) -> Result<Asked, AllocError> {
        let goal = Code::of(lit);
        let mut used = 0u64;
        let mut restarts = Restarts::FIRST;
        if self.is_contradictory {
            return Ok(Asked::Unknown);
        }
        for _ in 0..u64::MAX {
            let conflict = self.propagator.propagate()?;
            if conflict != ClauseRef::NONE {
                used = used.wrapping_add(1);
                self.conflicts = self.conflicts.wrapping_add(1);
                if self.propagator.trail.level() == 0 {
                    self.is_contradictory = true;
                    return Ok(Asked::Unknown);
                }
                self.learn(conflict)?;
                continue;
            }
            let is_over = restarts.is_over(used);
            match self.turn(goal, used >= budget, is_over)? {
                Turn::End(asked) => {
                    self.go_back(0)?;
                    return Ok(asked);
                }
                Turn::Decide(code) => self.propagator.trail.decide(code)?,
                Turn::GoBack => self.go_back(0)?,
            }
            if is_over {
                restarts = restarts.next(used);
            }
        }
        Ok(Asked::Unknown)
    }

    /// What is done next.
    fn turn(&mut self, goal: Code, is_spent: bool, is_over: bool) -> Result<Turn, AllocError> {
        let trail = &self.propagator.trail;
        if trail.level() == 0 {
            if trail.is_true(goal) {
                return Ok(Turn::End(Asked::Holds));
            }
            if is_spent {
                return Ok(Turn::End(Asked::Unknown));
            }
            if trail.is_open(goal) {
                return Ok(Turn::Decide(goal.negated()));
            }
        }
        if is_spent || is_over {
            return Ok(Turn::GoBack);
        }
        match self.choose() {
            Some(code) => Ok(Turn::Decide(code)),
            None => {
                self.take_bits()?;
                Ok(Turn::End(Asked::Fails))
            }
        }
    }

    /// The open variable of the cone with the greatest activity, with the value that it had last.
    fn choose(&mut self) -> Option<Code> {
        for _ in 0..u64::MAX {
            let code = positive(self.heap.pop()?);
            if self.propagator.trail.is_open(code) {
                let is_true = read(self.phases.as_slice(), code.variable(), false);
                return Some(if is_true { code } else { code.negated() });
            }
        }
        None
    }

    /// Notes the free bits of the cone with their values.
    fn take_bits(&mut self) -> Result<(), AllocError> {
        self.bits.clear();
        for variable in self.propagator.cone.bits.iter() {
            let code = positive(*variable);
            if self.propagator.trail.is_true(code) {
                self.bits.push(code.literal())?;
            } else if self.propagator.trail.is_false(code) {
                self.bits.push(code.negated().literal())?;
            }
        }
        Ok(())
    }
}
