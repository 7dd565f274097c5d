// What holds by candidates is taken back, with all that was derived from it.

use crate::search::ConeSearch;
use propagation_trail::{ClauseRef, Code, read};
use std::alloc::AllocError;

impl<'p> ConeSearch<'p> {
    /// Takes back what holds by these candidates, and all that was learned by it; makes the facts that are left true. The answer is
    /// false where they contradict each other.
    pub fn take_back(&mut self, candidates: &[u32]) -> Result<bool, AllocError> {
        self.go_back(0)?;
        for candidate in candidates {
            let none = ClauseRef::NONE;
            let clause = read(self.candidates.as_slice(), *candidate as usize, none);
            self.propagator.clauses.kill(clause);
        }
        self.kill_derived()?;
        self.forget_values();
        self.is_contradictory = !self.state_facts()?;
        Ok(!self.is_contradictory)
    }

    /// Takes back what was derived from clauses that were taken back.
    fn kill_derived(&mut self) -> Result<(), AllocError> {
        self.numbers.clear();
        let clauses = &mut self.propagator.clauses;
        self.derivations.kill_derived(clauses, &mut self.numbers)?;
        self.numbers.sort_unstable();
        let mut before = Code::NONE.number;
        for number in self.numbers.iter() {
            let code = Code { number: *number };
            if code.number != before {
                let clauses = &self.propagator.clauses;
                self.propagator.watches.sweep(code, clauses);
            }
            before = code.number;
        }
        Ok(())
    }

    /// No literal is true.
    fn forget_values(&mut self) {
        let trail = &mut self.propagator.trail;
        for place in 0..trail.len() {
            let variable = trail.code_at(place).variable();
            self.units.set(variable, ClauseRef::NONE);
        }
        trail.take_back(0, 0);
    }

    /// Makes the facts and the derived clauses of one literal true that were not taken back, and propagates; whether that comes to no
    /// contradiction.
    fn state_facts(&mut self) -> Result<bool, AllocError> {
        for place in 0..self.facts.len() {
            let clause = read(self.facts.as_slice(), place, ClauseRef::NONE);
            if !self.state(clause)? {
                return Ok(false);
            }
        }
        for number in 0..self.derivations.len() {
            let clause = self.derivations.get(number).clause;
            if self.propagator.clauses.codes(clause).len() == 1 && !self.state(clause)? {
                return Ok(false);
            }
        }
        Ok(self.propagator.propagate()? == ClauseRef::NONE)
    }

    /// Makes the literal of a clause of one true, unless it was taken back. The answer is false where the literal is false.
    fn state(&mut self, clause: ClauseRef) -> Result<bool, AllocError> {
        if self.propagator.clauses.is_dead(clause) {
            return Ok(true);
        }
        let code = read(self.propagator.clauses.codes(clause), 0, Code::NONE);
        let trail = &mut self.propagator.trail;
        if trail.is_open(code) {
            trail.assign(code, clause)?;
            self.units.set(code.variable(), clause);
        }
        Ok(trail.is_true(code))
    }
}
