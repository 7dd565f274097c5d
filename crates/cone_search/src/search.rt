// The search: the clauses of a circuit's gates, facts, and what was learned from them.

use crate::analysis::Analysis;
use crate::clauses::NOT_DERIVED;
use crate::derivations::Derivations;
use crate::gate_clauses::add_gates;
use crate::propagation::Propagator;
use crate::units::Units;
use cdcl_watch::ActivityHeap;
use clause_core::Lit;
use gates::{Circuit, TRUE};
use propagation_trail::{ClauseRef, Code, low, write};
use std::alloc::{AllocError, Global};

/// What comes of a question.
#[derive(Clone, Copy, PartialEq, Eq)]
pub enum Asked {
    /// The literal holds by the facts.
    Holds,
    /// It fails where the free bits of the cone have the values that `bits` gives, as far as the cone reaches.
    Fails,
    /// The budget was used up, or the facts contradict each other.
    Unknown,
}

/// The clauses of a circuit's gates, facts, and what was learned from them.
#[derive(Drop)]
pub struct ConeSearch<'p> {
    pub(crate) alloc: Global,
    pub(crate) circuit: &'p Circuit,
    pub(crate) propagator: Propagator,
    pub(crate) analysis: Analysis,
    pub(crate) derivations: Derivations,
    pub(crate) units: Units,
    /// The open variables of the cone; others that were decided are left out of it until they are open again.
    pub(crate) heap: ActivityHeap,
    /// The value that each variable had last.
    pub(crate) phases: Vec<bool>,
    /// The clauses of one literal that were not derived.
    pub(crate) facts: Vec<ClauseRef>,
    /// For each candidate the last of them that holds by it.
    pub(crate) candidates: Vec<ClauseRef>,
    /// What `bits` gives.
    pub(crate) bits: Vec<Lit>,
    /// How many conflicts there were.
    pub(crate) conflicts: u64,
    /// Whether the facts contradict each other.
    pub(crate) is_contradictory: bool,
    /// Numbers that are sorted.
    pub(crate) numbers: Vec<u32>,
}

impl<'p> ConeSearch<'p> {
    /// All gates and no fact. `base` has a value for each variable, by its number: the first phases.
    pub fn new(
        alloc: Global,
        circuit: &'p Circuit,
        base: &[bool],
    ) -> Result<ConeSearch<'p>, AllocError> {
        let variables = (circuit.first() as usize).wrapping_add(circuit.count());
        let mut heap = ActivityHeap::new(alloc);
        heap.renew(low(variables))?;
        let mut phases = vec![in alloc; false; variables]?;
        for (place, value) in base.iter().enumerate() {
            write(phases.as_mut_slice(), place, *value);
        }
        let mut search = ConeSearch {
            alloc,
            circuit,
            propagator: Propagator::new(alloc, variables)?,
            analysis: Analysis::new(alloc, variables)?,
            derivations: Derivations::new(alloc),
            units: Units::new(alloc, variables)?,
            heap,
            phases,
            facts: Vec::new(alloc),
            candidates: Vec::new(alloc),
            bits: Vec::new(alloc),
            conflicts: 0,
            is_contradictory: false,
            numbers: Vec::new(alloc),
        };
        search.add_fact(TRUE)?;
        add_gates(&mut search.propagator, circuit)?;
        Ok(search)
    }

    /// A literal that holds for good. It counts from the next `take_back` on.
    pub fn add_fact(&mut self, lit: Lit) -> Result<(), AllocError> {
        let clause = self.propagator.attach(&[Code::of(lit)], NOT_DERIVED)?;
        self.facts.push(clause)?;
        Ok(())
    }

    /// A literal that holds as long as the candidate of that number is in the set. It counts from the next `take_back` on. A candidate has
    /// one such literal.
    pub fn add_candidate(&mut self, candidate: u32, lit: Lit) -> Result<(), AllocError> {
        let clause = self.propagator.attach(&[Code::of(lit)], NOT_DERIVED)?;
        self.facts.push(clause)?;
        let place = candidate as usize;
        for _ in self.candidates.len()..place.wrapping_add(1) {
            self.candidates.push(ClauseRef::NONE)?;
        }
        write(self.candidates.as_mut_slice(), place, clause);
        Ok(())
    }

    /// Whether a literal is known to hold.
    pub fn holds(&self, lit: Lit) -> bool {
        self.propagator.trail.is_true(Code::of(lit))
    }

    /// The free bits of the cone with their values, behind a literal that fails.
    pub fn bits(&self) -> &[Lit] {
        self.bits.as_slice()
    }

    /// How many conflicts there were in all.
    pub fn conflicts(&self) -> u64 {
        self.conflicts
    }
}
