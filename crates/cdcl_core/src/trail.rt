// The trail of a search: the literals that are true, in the order in which they became so.

ghost use Rattle.std.specs.Prelude.{◌≡◌};

use crate::table::{read, write};
use clause_core::{Clause, Lit, Status, Truth};
use std::alloc::{AllocError, Global};

const NO_LITERAL: Lit = Lit {
    variable: 0,
    negative: false,
};

const NO_CAUSE: Cause = Cause {
    level: 0,
    reason: 0,
};

/// Where a literal became true: how many decisions stood, and which clause was unit, by its number
/// from 1, or 0 for a decision.
#[derive(Clone, Copy)]
pub(crate) struct Cause {
    pub level: u32,
    pub reason: u32,
}

/// What a pass over all held clauses comes to.
#[derive(Clone, Copy)]
enum Pass {
    /// The clause of this number is false.
    Conflict(u32),
    Changed,
    Closed,
}

#[derive(Drop)]
pub(crate) struct Trail {
    values: Vec<Truth>,
    causes: Vec<Cause>,
    literals: Vec<Lit>,
    /// How many literals stood when each decision was made.
    starts: Vec<usize>,
}

impl Trail {
    pub fn new(alloc: Global, variables: u32) -> Result<Trail, AllocError> {
        let places = variables as usize + 1;
        Ok(Trail {
            values: vec![in alloc; Truth::Open; places]?,
            causes: vec![in alloc; NO_CAUSE; places]?,
            literals: Vec::new(alloc),
            starts: Vec::new(alloc),
        })
    }

    pub fn values(&self) -> &[Truth]
        ensures { result.now ≡ self.now.values.items }
    {
        self.values.as_slice()
    }

    pub fn len(&self) -> usize {
        self.literals.len()
    }

    pub fn literal_at(&self, place: usize) -> Lit {
        read(self.literals.as_slice(), place, NO_LITERAL)
    }

    pub fn cause(&self, literal: Lit) -> Cause {
        read(self.causes.as_slice(), literal.variable as usize, NO_CAUSE)
    }

    /// How many decisions stand.
    pub fn level(&self) -> u32 {
        (self.starts.len() & 0xffff_ffff) as u32
    }

    /// Makes a literal true by decision.
    pub fn decide(&mut self, literal: Lit) -> Result<(), AllocError> {
        let start = self.literals.len();
        self.starts.push(start)?;
        self.assign(literal, 0)
    }

    /// Makes a literal true by the clause of this number.
    fn assign(&mut self, literal: Lit, reason: u32) -> Result<(), AllocError> {
        let truth = if literal.negative {
            Truth::False
        } else {
            Truth::True
        };
        let level = self.level();
        let place = literal.variable as usize;
        write(self.values.as_mut_slice(), place, truth);
        write(self.causes.as_mut_slice(), place, Cause { level, reason });
        self.literals.push(literal)?;
        Ok(())
    }

    /// Takes back all decisions above a level, and what followed from them.
    pub fn backtrack(&mut self, level: u32) {
        let Some(start) = self.starts.get(level as usize).copied() else {
            return;
        };
        for place in start..self.literals.len() {
            let literal = self.literal_at(place);
            write(
                self.values.as_mut_slice(),
                literal.variable as usize,
                Truth::Open,
            );
        }
        self.literals.truncate(start);
        self.starts.truncate(level as usize);
    }

    /// Unit propagation over all held clauses, to the end or to a false clause, whose number it answers.
    pub fn propagate(&mut self, held: &[Clause]) -> Result<Option<u32>, AllocError> {
        for _ in 0..self.values.len() {
            match self.propagate_once(held)? {
                Pass::Conflict(number) => {
                    return Ok(Some(number));
                }
                Pass::Closed => {
                    return Ok(None);
                }
                Pass::Changed => {}
            }
        }
        Ok(None)
    }

    /// Makes the literal of each unit clause true.
    fn propagate_once(&mut self, held: &[Clause]) -> Result<Pass, AllocError> {
        let mut pass = Pass::Closed;
        let mut number = 0u32;
        for clause in held {
            number = number.wrapping_add(1);
            match self.status(clause.literals()) {
                Status::Falsified => {
                    return Ok(Pass::Conflict(number));
                }
                Status::Unit(literal) => {
                    self.assign(literal, number)?;
                    pass = Pass::Changed;
                }
                Status::Neither => {}
            }
        }
        Ok(pass)
    }

    fn value(&self, literal: Lit) -> Truth {
        let of_variable = read(
            self.values.as_slice(),
            literal.variable as usize,
            Truth::Open,
        );
        if !literal.negative {
            return of_variable;
        }
        match of_variable {
            Truth::Open => Truth::Open,
            Truth::True => Truth::False,
            Truth::False => Truth::True,
        }
    }

    /// What the clause of these literals is under the values.
    fn status(&self, literals: &[Lit]) -> Status {
        let mut open = None;
        for literal in literals {
            match self.value(*literal) {
                Truth::True => {
                    return Status::Neither;
                }
                Truth::Open => {
                    if open.is_some() {
                        return Status::Neither;
                    }
                    open = Some(*literal);
                }
                Truth::False => {}
            }
        }
        match open {
            None => Status::Falsified,
            Some(literal) => Status::Unit(literal),
        }
    }
}
