// A guess which clause that is held is a part of another. Nothing is owed: whoever asks tests the answer.
//
// The first literal of a part stands in the clause. So the clauses are chained by their first literals, and those of one
// literal alone, which are parts of the most, are looked up first.

use clause_core::{Clause, Cnf, Lit, is_always, is_held_part};
use std::alloc::{AllocError, Global};
use watched_propagation::{Code, low, read, write};

/// Formulas of this many variables or more have no index.
const MOST_VARIABLES: u32 = 0x8000_0000;

/// The place of a literal in a table.
fn code(literal: Lit) -> usize {
    Code::of(literal).number as usize
}

/// Whether the clause at a place, but not at another one, is a part of these literals.
fn covers(held: &[Clause], place: usize, but: usize, literals: &[Lit]) -> bool {
    match held.get(place) {
        None => false,
        Some(clause) => {
            let part = clause.literals();
            place != but && part.len() <= literals.len() && is_held_part(part, literals)
        }
    }
}

/// Whether the clause at a place is held no more.
fn is_gone(held: &[Clause], place: usize) -> bool {
    match held.get(place) {
        None => false,
        Some(clause) => is_always(clause.literals()),
    }
}

/// The clauses by their first literals. A clause is named by its number, from 1.
#[derive(Drop)]
struct Chains {
    /// For each literal, a clause of it alone, or 0.
    alone: Vec<u32>,
    /// For each literal, the last clause that begins with it, or 0.
    last: Vec<u32>,
    /// For each clause the one before it that begins with the same literal, or 0.
    before: Vec<u32>,
}

impl Chains {
    /// The chains of all clauses.
    fn of(alloc: Global, cnf: &Cnf) -> Result<Chains, AllocError> {
        let literals = (cnf.variables() as usize + 1) * 2;
        let mut chains = Chains {
            alone: vec![in alloc; 0u32; literals]?,
            last: vec![in alloc; 0u32; literals]?,
            before: Vec::new(alloc),
        };
        for clause in cnf.clauses() {
            chains.add(clause.literals())?;
        }
        Ok(chains)
    }

    /// Takes in a clause behind the others.
    fn add(&mut self, literals: &[Lit]) -> Result<(), AllocError> {
        let number = low(self.before.len()).wrapping_add(1);
        match literals.first() {
            None => self.before.push(0)?,
            Some(first) => {
                let code = code(*first);
                self.before.push(read(self.last.as_slice(), code, 0))?;
                write(self.last.as_mut_slice(), code, number);
                if literals.len() == 1 {
                    write(self.alone.as_mut_slice(), code, number);
                }
            }
        }
        Ok(())
    }

    /// Passes over the clause at a place from now on: `next`, the number behind it in the chain of a literal, follows `last`.
    fn unlink(&mut self, code: usize, last: u32, next: u32) {
        if last == 0 {
            write(self.last.as_mut_slice(), code, next);
        } else {
            write(
                self.before.as_mut_slice(),
                last.wrapping_sub(1) as usize,
                next,
            );
        }
    }

    /// Looks for a part among the clauses that begin with a literal, and passes over those that are held no more.
    fn find_from(
        &mut self,
        held: &[Clause],
        but: usize,
        literals: &[Lit],
        code: usize,
    ) -> Option<usize> {
        let mut last = 0u32;
        let mut number = read(self.last.as_slice(), code, 0);
        for _ in 0..held.len() {
            if number == 0 {
                return None;
            }
            let place = number.wrapping_sub(1) as usize;
            if covers(held, place, but, literals) {
                return Some(place);
            }
            let next = read(self.before.as_slice(), place, 0);
            if is_gone(held, place) {
                self.unlink(code, last, next);
            } else {
                last = number;
            }
            number = next;
        }
        None
    }

    /// The place of a clause that is a part of these literals, as far as it is known.
    fn find(&mut self, held: &[Clause], but: usize, literals: &[Lit]) -> Option<usize> {
        for literal in literals {
            let place = read(self.alone.as_slice(), code(*literal), 0).wrapping_sub(1) as usize;
            if covers(held, place, but, literals) {
                return Some(place);
            }
        }
        for literal in literals {
            let found = self.find_from(held, but, literals, code(*literal));
            if found.is_some() {
                return found;
            }
        }
        None
    }
}

/// The chains of what is held, made when they are first asked for.
#[derive(Drop)]
pub(crate) struct CoverIndex {
    alloc: Global,
    chains: Option<Chains>,
}

impl CoverIndex {
    /// No chains.
    pub fn new(alloc: Global) -> CoverIndex {
        CoverIndex {
            alloc,
            chains: None,
        }
    }

    /// Takes in a clause that is held behind the others. Where memory is wanting there are no chains any more.
    pub fn take_in(&mut self, literals: &[Lit]) {
        match self.chains.take() {
            None => {}
            Some(mut chains) => {
                if let Ok(()) = chains.add(literals) {
                    self.chains = Some(chains);
                }
            }
        }
    }

    /// The chains, made where there is memory for them.
    fn take_or_make(&mut self, cnf: &Cnf) -> Option<Chains> {
        match self.chains.take() {
            Some(chains) => Some(chains),
            None => {
                if cnf.variables() >= MOST_VARIABLES {
                    return None;
                }
                match Chains::of(self.alloc, cnf) {
                    Ok(chains) => Some(chains),
                    Err(_) => None,
                }
            }
        }
    }

    /// The place of a clause that is a part of the one at a place, as far as it is known. Mostly it is the last clause, since a decider
    /// lets go of what its last one covers.
    pub fn guess(&mut self, cnf: &Cnf, place: usize, literals: &[Lit]) -> Option<usize> {
        let last = cnf.clauses().len().wrapping_sub(1);
        if covers(cnf.clauses(), last, place, literals) {
            return Some(last);
        }
        let Some(mut chains) = self.take_or_make(cnf) else {
            return None;
        };
        let found = chains.find(cnf.clauses(), place, literals);
        self.chains = Some(chains);
        found
    }
}
