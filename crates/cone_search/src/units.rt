// The clauses of one literal that state what is true where no decision stands.

use crate::clauses::Clauses;
use crate::derivations::Derivations;
use crate::trail::Trail;
use propagation_trail::{ClauseRef, Code, low, read, write};
use std::alloc::{AllocError, Global};

/// The positive literal of a variable.
#[inline(always)]
pub(crate) fn positive(variable: u32) -> Code {
    Code {
        number: variable.wrapping_mul(2),
    }
}

/// For each variable the clause that states its value, where there is one.
#[derive(Drop)]
pub(crate) struct Units {
    clauses: Vec<ClauseRef>,
    stack: Vec<u32>,
}

impl Units {
    /// None of so many variables.
    pub fn new(alloc: Global, variables: usize) -> Result<Units, AllocError> {
        Ok(Units {
            clauses: vec![in alloc; ClauseRef::NONE; variables]?,
            stack: Vec::new(alloc),
        })
    }

    /// The clause that states the variable's value, if there is one. What is no variable wants none: any will do.
    #[inline(always)]
    fn get(&self, variable: u32) -> ClauseRef {
        read(self.clauses.as_slice(), variable as usize, ClauseRef::at(0))
    }

    /// A clause states the variable's value; none does where it is `ClauseRef::NONE`.
    pub fn set(&mut self, variable: usize, clause: ClauseRef) {
        write(self.clauses.as_mut_slice(), variable, clause);
    }

    /// The clause that states the value that a variable has where no decision stands. Where there is none it is derived, from the reason
    /// of the value and from such clauses of the reason's other variables.
    pub fn unit_of(
        &mut self,
        clauses: &mut Clauses,
        trail: &Trail,
        derivations: &mut Derivations,
        variable: u32,
    ) -> Result<ClauseRef, AllocError> {
        self.stack.clear();
        self.stack.push(variable)?;
        for _ in 0..u64::MAX {
            let Some(top) = self.stack.pop() else {
                break;
            };
            if self.get(top) != ClauseRef::NONE {
                continue;
            }
            let reason = trail.cause(top as usize).reason;
            if clauses.codes(reason).len() == 1 {
                self.set(top as usize, reason);
            } else if !self.push_others(clauses.codes(reason), top)? {
                self.derive(clauses, trail, derivations, top, reason)?;
            }
        }
        Ok(self.get(variable))
    }

    /// Pushes the variables of a reason whose values no clause states yet, on top of the variable whose reason it is; whether there are any.
    fn push_others(&mut self, codes: &[Code], top: u32) -> Result<bool, AllocError> {
        let mut has_others = false;
        for code in codes {
            let variable = low(code.variable());
            if variable == top || self.get(variable) != ClauseRef::NONE {
                continue;
            }
            if !has_others {
                self.stack.push(top)?;
                has_others = true;
            }
            self.stack.push(variable)?;
        }
        Ok(has_others)
    }

    /// Derives the clause that states a variable's value.
    fn derive(
        &mut self,
        clauses: &mut Clauses,
        trail: &Trail,
        derivations: &mut Derivations,
        variable: u32,
        reason: ClauseRef,
    ) -> Result<(), AllocError> {
        for code in clauses.codes(reason) {
            let other = low(code.variable());
            if other != variable {
                derivations.hints.push(self.get(other))?;
            }
        }
        derivations.hints.push(reason)?;
        let mut code = positive(variable);
        if trail.is_false(code) {
            code = code.negated();
        }
        let unit = clauses.push(&[code], low(derivations.len()))?;
        derivations.close(unit, Code::NONE)?;
        self.set(variable as usize, unit);
        Ok(())
    }
}
