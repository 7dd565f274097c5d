// The literals that are true, in the order in which they became so, with levels that can be taken back.

use clause_core::Truth;
use propagation_trail::{Cause, ClauseRef, Code, low, read, write};
use std::alloc::{AllocError, Global};

const NO_CAUSE: Cause = Cause {
    level: 0,
    reason: ClauseRef::NONE,
    place: 0,
};

#[derive(Drop)]
pub(crate) struct Trail {
    /// The value of each literal, by its code.
    truths: Vec<Truth>,
    /// For each variable that has a value, where it became so.
    causes: Vec<Cause>,
    /// The true literals.
    codes: Vec<Code>,
    /// How many literals were true when each decision was made.
    limits: Vec<usize>,
    /// How many of the true literals were propagated.
    head: usize,
}

impl Trail {
    /// No true literal of so many variables.
    pub fn new(alloc: Global, variables: usize) -> Result<Trail, AllocError> {
        Ok(Trail {
            truths: vec![in alloc; Truth::Open; variables.saturating_mul(2)]?,
            causes: vec![in alloc; NO_CAUSE; variables]?,
            codes: Vec::with_capacity(alloc, variables)?,
            limits: Vec::new(alloc),
            head: 0,
        })
    }

    #[inline(always)]
    pub fn value(&self, code: Code) -> Truth {
        read(self.truths.as_slice(), code.place(), Truth::Open)
    }

    #[inline(always)]
    pub fn is_true(&self, code: Code) -> bool {
        match self.value(code) {
            Truth::True => true,
            _ => false,
        }
    }

    #[inline(always)]
    pub fn is_false(&self, code: Code) -> bool {
        match self.value(code) {
            Truth::False => true,
            _ => false,
        }
    }

    #[inline(always)]
    pub fn is_open(&self, code: Code) -> bool {
        match self.value(code) {
            Truth::Open => true,
            _ => false,
        }
    }

    /// Where a variable's value comes from, if it has one.
    #[inline(always)]
    pub fn cause(&self, variable: usize) -> Cause {
        read(self.causes.as_slice(), variable, NO_CAUSE)
    }

    /// How many decisions stand.
    #[inline(always)]
    pub fn level(&self) -> u32 {
        low(self.limits.len())
    }

    /// How many literals are true.
    #[inline(always)]
    pub fn len(&self) -> usize {
        self.codes.len()
    }

    /// The true literal of a place.
    #[inline(always)]
    pub fn code_at(&self, place: usize) -> Code {
        read(self.codes.as_slice(), place, Code::NONE)
    }

    /// How many literals were true when the decision above a level was made; all where there is none.
    pub fn limit_above(&self, level: u32) -> usize {
        read(self.limits.as_slice(), level as usize, self.codes.len())
    }

    /// The next true literal to be propagated.
    #[inline(always)]
    pub fn next(&mut self) -> Option<Code> {
        if self.head >= self.codes.len() {
            return None;
        }
        let code = self.code_at(self.head);
        self.head = self.head.wrapping_add(1);
        Some(code)
    }

    /// Nothing more is to be propagated, since a clause is false.
    pub fn stop(&mut self) {
        self.head = self.codes.len();
    }

    /// Makes an open literal true by a clause, or by a decision.
    #[inline(always)]
    pub fn assign(&mut self, code: Code, reason: ClauseRef) -> Result<(), AllocError> {
        let cause = Cause {
            level: low(self.limits.len()),
            reason,
            place: low(self.codes.len()),
        };
        self.codes.push(code)?;
        write(self.truths.as_mut_slice(), code.place(), Truth::True);
        let opposite = code.negated().place();
        write(self.truths.as_mut_slice(), opposite, Truth::False);
        write(self.causes.as_mut_slice(), code.variable(), cause);
        Ok(())
    }

    /// Makes a literal true by a decision, on a level of its own.
    pub fn decide(&mut self, code: Code) -> Result<(), AllocError> {
        self.limits.push(self.codes.len())?;
        self.assign(code, ClauseRef::NONE)
    }

    /// Takes back all literals from a place on, and the decisions above a level.
    pub fn take_back(&mut self, place: usize, level: u32) {
        for taken in place..self.codes.len() {
            let code = self.code_at(taken);
            write(self.truths.as_mut_slice(), code.place(), Truth::Open);
            let opposite = code.negated().place();
            write(self.truths.as_mut_slice(), opposite, Truth::Open);
        }
        self.codes.truncate(place);
        self.limits.truncate(level as usize);
        self.head = place;
    }
}
