// What literals that hold rest on.

use crate::derivations::Derivation;
use crate::search::ConeSearch;
use cdcl_watch::Guide;
use clause_core::Lit;
use propagation_trail::{Code, low, read, write};
use std::alloc::AllocError;

impl<'p> ConeSearch<'p> {
    /// The learned clauses that literals which are known to hold rest on, in the order in which they were learned.
    pub fn rests_on(&mut self, goals: &[Lit]) -> Result<Guide, AllocError> {
        self.numbers.clear();
        for goal in goals {
            let code = Code::of(*goal);
            if self.propagator.trail.is_true(code) {
                self.note_unit(low(code.variable()))?;
            }
        }
        let mut used = vec![in self.alloc; false; self.derivations.len()]?;
        for number in self.numbers.iter() {
            write(used.as_mut_slice(), *number as usize, true);
        }
        let clauses = &self.propagator.clauses;
        self.derivations.mark_used(clauses, used.as_mut_slice());
        let mut guide = Guide::new(self.alloc);
        for number in 0..self.derivations.len() {
            let derivation = self.derivations.get(number);
            let is_learned = derivation.asserted.number != Code::NONE.number;
            if read(used.as_slice(), number, false) && is_learned {
                self.add_to_guide(derivation, &mut guide)?;
            }
        }
        Ok(guide)
    }

    /// Notes the number of the derivation that states a variable's value, where it was derived.
    fn note_unit(&mut self, variable: u32) -> Result<(), AllocError> {
        let trail = &self.propagator.trail;
        let clauses = &mut self.propagator.clauses;
        let derivations = &mut self.derivations;
        let unit = self.units.unit_of(clauses, trail, derivations, variable)?;
        self.numbers.push(clauses.derivation(unit))?;
        Ok(())
    }

    /// Adds a derived clause to the guide: first the literal that the conflict made true, since it is the last that has to be made false for
    /// that conflict to come again; then the others, in the order of their variables.
    fn add_to_guide(
        &mut self,
        derivation: Derivation,
        guide: &mut Guide,
    ) -> Result<(), AllocError> {
        self.numbers.clear();
        let asserted = derivation.asserted.number;
        for code in self.propagator.clauses.codes(derivation.clause) {
            if code.number != asserted {
                self.numbers.push(code.number)?;
            }
        }
        self.numbers.sort_unstable();
        guide.push(derivation.asserted.literal())?;
        for number in self.numbers.iter() {
            guide.push(Code { number: *number }.literal())?;
        }
        guide.end()
    }
}
