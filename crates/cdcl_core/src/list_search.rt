// The plain search of conflict-driven clause learning: it propagates over the whole list of clauses.

ghost use Rattle.std.specs.Prelude.{◌≡◌, ◌+◌, IfOk};

use crate::analysis::Analysis;
use crate::order::Order;
use crate::search::{Covered, Proposal, Search};
use crate::trail::Trail;
use clause_core::{Clause, Truth, all_closed};
use std::alloc::{AllocError, Global};

/// Decides, propagates, and at a conflict learns the clause of the first unique implication point, as
/// Marques-Silva and Sakallah's GRASP and later solvers; no watched literals, no restarts.
#[derive(Drop)]
pub(crate) struct ListSearch {
    places: usize,
    trail: Trail,
    order: Order,
    analysis: Analysis,
}

impl ListSearch {
    pub fn new(alloc: Global, variables: u32) -> Result<ListSearch, AllocError>
        ensures { IfOk result (λ s. s.places ≡ variables + 1) }
    {
        Ok(ListSearch {
            places: variables as usize + 1,
            trail: Trail::new(alloc, variables)?,
            order: Order::new(alloc, variables)?,
            analysis: Analysis::new(alloc, variables)?,
        })
    }

    /// Takes back the decisions above a level, and keeps the values that they led to.
    fn go_back(&mut self, level: u32)
        ensures { self.new.places ≡ self.old.places }
    {
        for place in 0..self.trail.len() {
            self.order.keep_phase(self.trail.literal_at(place));
        }
        self.trail.backtrack(level);
    }

    /// Learns from the conflict at the clause of this number, and takes the last decision back.
    fn derive(&mut self, held: &[Clause], conflict: u32) -> Result<Proposal, AllocError>
        ensures { self.new.places ≡ self.old.places }
    {
        let step = self
            .analysis
            .analyze(held, &self.trail, &mut self.order, conflict)?;
        self.order.end_conflict();
        let below = self.trail.level().saturating_sub(1);
        self.go_back(below);
        Ok(Proposal::Derivation(step))
    }
}

impl Search for ListSearch {
    ghost has_taken = { λ _ _. Unit {0} };

    ghost values = { λ s. s.trail.values.items };

    ghost places = { λ s. s.places };

    fn propose(&mut self, held: &[Clause]) -> Result<Proposal, AllocError> {
        for _ in 0..self.trail.values().len() {
            if let Some(conflict) = self.trail.propagate(held)? {
                return self.derive(held, conflict);
            }
            match self.order.choose(self.trail.values()) {
                None => {
                    return Ok(Proposal::Solution);
                }
                Some(literal) => {
                    self.trail.decide(literal)?;
                }
            }
        }
        Ok(Proposal::Solution)
    }

    fn values(&self) -> &[Truth] {
        self.trail.values()
    }

    fn is_closed(&self, held: &[Clause]) -> bool {
        let values = self.trail.values();
        values.len() == self.places && all_closed(held, values)
    }

    fn learn(&mut self) -> Result<(), AllocError> {
        let level = self.analysis.back();
        self.go_back(level);
        Ok(())
    }

    fn restart(&mut self) -> Result<(), AllocError> {
        self.go_back(0);
        Ok(())
    }

    fn covered(&mut self) -> Option<Covered> {
        None
    }

    fn let_go(&mut self, covered: Covered) -> Result<(), AllocError> {
        let _ = covered;
        Ok(())
    }
}
