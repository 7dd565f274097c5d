ghost use Rattle.std.specs.Prelude.{◌≡◌, ℕ, Bool, true, false, [], ◌↔◌, Contains, IsTrue, IfOk, IfErr, OnOk, OnErr};
ghost use Rattle.clause_core.specs.Clauses.{rises};
ghost use Rattle.clause_core.specs.Satisfaction.{Satisfies, HasNoSolution, clause_true};
ghost use Rattle.clause_core.specs.Logs.{Accepts};
ghost use Rattle.clause_core.specs.Freshness.{IsFresh};
ghost use Rattle.derivation_check.specs.Checks.{held_of, Holds, FaultFits};
ghost use Rattle.derivation_check.specs.Deletions.{may_delete, without};

use crate::cover_index::CoverIndex;
use crate::deletion::{Gone, is_refuted, judge_deletion};
use crate::fault::{DelFault, StepFault};
use crate::implication_graph::ImplicationGraph;
use crate::lazy_test::{add, let_go, shows};
use clause_core::{Cnf, Outcome, Step, Truth, check_step, clear, is_fresh, unassigned};
use std::alloc::{AllocError, Global};
use std::marker::Model;
use watched_propagation::Propagator;

/// A step or a deletion was accepted.
#[derive(Clone, Copy)]
pub struct Ack;

/// Holds the clauses of a formula and those derived from it, in this order and numbered from 1. A derived clause that is deleted
/// keeps its number; what is always true stands in its place.
#[derive(Drop)]
pub struct Checker {
    alloc: Global,
    held: Cnf,
    /// How many of the clauses are those of the formula.
    given: usize,
    values: Vec<Truth>,
    test: Option<Propagator>,
    graph: ImplicationGraph,
    covers: CoverIndex,
    gone: Gone,
    is_refuted: bool,
}

impl Model for Checker {
    ghost use Rattle.derivation_check.specs.Checks.{Derivation};

    ghost Value = { Derivation };

    ghost use Rattle.derivation_check.specs.Inside.{derivation_of, IsSound};

    ghost view = { derivation_of };

    ghost invariant = { IsSound };
}

impl Checker {
    /// Holds the formula's clauses.
    pub fn new(alloc: Global, cnf: Cnf) -> Result<Checker, AllocError>
        ensures { IfOk result (λ checker. checker ≡ record { formula = cnf; derived = [] }) }
    {
        let values = unassigned(alloc, cnf.variables())?;
        let given = cnf.clauses().len();
        Ok(Checker {
            alloc,
            held: cnf,
            given,
            values,
            test: None,
            graph: ImplicationGraph::new(alloc),
            covers: CoverIndex::new(alloc),
            gone: Gone::NONE,
            is_refuted: false,
        })
    }

    /// How many variables the formula has.
    pub fn variables(&self) -> u32
        ensures { result ≡ self.now.formula.variables }
    {
        self.held.variables()
    }

    /// Takes a step that is accepted, in time proportional to the literals of its clause and of the
    /// clauses that its hints name. Hints behind the one that decides are not looked at.
    pub fn step(&mut self, step: &Step) -> Result<Ack, StepFault>
        requires { IsTrue (rises self.old.formula.variables step.now.clause) }
        ensures accepted { OnOk result
            (Accepts self.old.formula.variables (held_of self.old) step.now) }
        ensures held { OnOk result (Holds self.old self.new step.now.clause) }
        ensures follows { OnOk result ((v : ℕ → Bool) → Satisfies v (held_of self.old)
            → clause_true v step.now.clause ≡ true) }

        // `Memory` comes only where the step is accepted.
        ensures fault { IfErr result (FaultFits self.old step.now) }
        ensures unchanged { OnErr result (self.new ≡ self.old) }
    {
        let outcome = check_step(
            self.held.clauses(),
            self.values.as_mut_slice(),
            step.clause.literals(),
            step.hints.numbers(),
        );
        match outcome {
            Outcome::Accepted => {
                let Ok(()) = self.held.push_rising(step.clause.literals()) else {
                    return Err(StepFault::Memory);
                };
                self.is_refuted = self.is_refuted | step.clause.literals().is_empty();
                // Where memory is wanting here, `fresh` is as right as ever, and takes longer.
                add(&mut self.test, step.clause.literals(), step.hints.numbers());
                self.covers.take_in(step.clause.literals());
                Ok(Ack)
            }
            Outcome::UnknownHint(number) => Err(StepFault::UnknownHint(number)),
            Outcome::NotUnit(number) => Err(StepFault::NotUnit(number)),
            Outcome::NoConflict => Err(StepFault::NoConflict),
        }
    }

    /// Whether the step's clause is fresh over what is held. The first call makes the test that shows it; where
    /// memory is wanting the answer is as right, and takes longer. One that is fresh takes time in proportion to the
    /// literals of the clauses that its hints name, and unit propagation from its own, once where the hints show which
    /// of them it asserts; to one that is not, each of its literals takes as many passes over the held clauses as unit
    /// propagation needs.
    pub fn fresh(&mut self, step: &Step) -> bool
        requires { IsTrue (rises self.old.formula.variables step.now.clause) }
        ensures exact { IsTrue result ↔ IsFresh (held_of self.old) step.now.clause }
        ensures unchanged { self.new ≡ self.old }
    {
        let literals = step.clause.literals();
        let hints = step.hints.numbers();
        if shows(
            self.alloc,
            &mut self.test,
            &mut self.graph,
            &self.held,
            literals,
            hints,
        ) {
            return true;
        }
        let variables = self.held.variables();
        let held = self.held.clauses();
        let answer = is_fresh(variables, held, self.values.as_mut_slice(), literals);
        clear(self.values.as_mut_slice());
        answer
    }

    /// Holds a derived clause no more, where another that is held is a part of it. Its number stays, and no hint may name it any
    /// more. It fails for no want of memory. In most cases it takes time in proportion to the literals of the clause and of those
    /// that begin with one of them, and at most one pass over what is held.
    pub fn delete(&mut self, number: usize) -> Result<Ack, DelFault>
        ensures deleted { OnOk result
            (IsTrue (may_delete self.old number) × (self.new ≡ without self.old number)) }
        ensures refused { OnErr result (may_delete self.old number ≡ false) }
        ensures unchanged { OnErr result (self.new ≡ self.old) }
    {
        let cover = judge_deletion(&mut self.covers, &self.held, self.given, number)?;
        self.held.let_go(number - 1);
        let derived = self.held.clauses().len().wrapping_sub(self.given);
        let is_stale = self.gone.note(self.test.is_some(), derived);
        let_go(&mut self.test, number, cover, is_stale);
        self.is_refuted = is_refuted(self.is_refuted, &self.held, self.given);
        Ok(Ack)
    }

    /// Whether an accepted step's clause was empty, and is held.
    pub fn refuted(&self) -> bool
        ensures exact { IsTrue result ↔ Contains self.now.derived [] }
        ensures unsatisfiable { IsTrue result → HasNoSolution self.now.formula.clauses }
    {
        self.is_refuted
    }
}
