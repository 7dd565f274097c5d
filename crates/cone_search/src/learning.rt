// What a conflict teaches is kept, with what it is derived from.

use crate::search::ConeSearch;
use propagation_trail::{ClauseRef, Code, low, read, write};
use std::alloc::AllocError;

impl<'p> ConeSearch<'p> {
    /// Learns from a false clause, where a decision stands, and goes back to the level at which what was learned is unit.
    pub(crate) fn learn(&mut self, conflict: ClauseRef) -> Result<(), AllocError> {
        let clauses = &self.propagator.clauses;
        let trail = &self.propagator.trail;
        self.analysis
            .analyze(clauses, trail, &mut self.heap, conflict)?;
        self.explain(conflict)?;
        self.go_back(self.analysis.back)?;
        let learned = self.analysis.learned.as_slice();
        let number = low(self.derivations.len());
        let clause = self.propagator.attach(learned, number)?;
        let first = read(learned, 0, Code::NONE);
        self.derivations.close(clause, first)?;
        if learned.len() == 1 {
            self.units.set(first.variable(), clause);
        }
        self.propagator.trail.assign(first, clause)?;
        self.heap.end_conflict();
        Ok(())
    }

    /// Notes the hints of the learned clause: the clauses that state values behind which no decision stands, the reasons of the others in
    /// the order of the trail, and the false clause.
    fn explain(&mut self, conflict: ClauseRef) -> Result<(), AllocError> {
        let trail = &self.propagator.trail;
        let clauses = &mut self.propagator.clauses;
        let derivations = &mut self.derivations;
        for variable in self.analysis.zero.iter() {
            self.units.unit_of(clauses, trail, derivations, *variable)?;
        }
        for variable in self.analysis.zero.iter() {
            let unit = self.units.unit_of(clauses, trail, derivations, *variable)?;
            derivations.hints.push(unit)?;
        }
        for (_, number) in self.analysis.needed.iter() {
            derivations.hints.push(ClauseRef { number: *number })?;
        }
        derivations.hints.push(conflict)?;
        Ok(())
    }

    /// Takes back the decisions above a level. The values that they led to are kept for the next decisions, and the variables of the cone
    /// may be decided again.
    pub(crate) fn go_back(&mut self, level: u32) -> Result<(), AllocError> {
        let trail = &mut self.propagator.trail;
        if trail.level() <= level {
            return Ok(());
        }
        let start = trail.limit_above(level);
        for place in (start..trail.len()).rev() {
            let code = trail.code_at(place);
            let is_true = !code.is_negative();
            write(self.phases.as_mut_slice(), code.variable(), is_true);
            if self.propagator.cone.has(code) {
                self.heap.insert(low(code.variable()))?;
            }
        }
        trail.take_back(start, level);
        Ok(())
    }
}
