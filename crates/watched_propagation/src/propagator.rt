// Unit propagation by two watched literals a clause.

ghost use Rattle.std.specs.Prelude.{◌≡◌, ◌<◌, ◌+◌, ◌^◌, ◌++◌, ◌∷◌, [], length, replicate, IsTrue, IfOk, OnOk};
ghost use Rattle.clause_core.specs.declared.truth.Truth.{Truth};
ghost use Rattle.clause_core.specs.Steps.{VariablesBelow};
ghost use Rattle.clause_core.specs.Propagation.{IsClosed};

use crate::adding::{add_given, add_learned};
use crate::arena::Arena;
use crate::closed::is_closed;
use crate::covered::let_go;
use crate::levels::{assume, decide, go_back};
use crate::visit::propagate;
use crate::watch::{Pair, WatchList, watch_lists};
use clause_core::{Lit, Truth};
use propagation_trail::{Cause, ClauseRef, Code, Trail, low};
use std::alloc::{AllocError, Global};
use std::marker::Model;

/// Clauses, what they watch, and what is true. Contracts see the clauses and the values.
///
/// Each boundary of levels was closed when its decision was made, and stays so: to go back to it needs
/// no work.
#[derive(Drop)]
pub struct Propagator {
    arena: Arena,
    pairs: Vec<Pair>,
    lists: Vec<WatchList>,
    trail: Trail,
    /// The places of the clauses that watch nothing and of which no literal stays true: those that were false when they came,
    /// and what could not be watched.
    loose: Vec<usize>,
}

impl Model for Propagator {
    ghost use Rattle.watched_propagation.specs.Propagations.{Propagation, literals_of, IsPropagator};

    ghost Value = { Propagation };

    ghost view = { λ p. record { held = literals_of p.arena; values = p.trail.values } };

    ghost invariant = { λ p. IsPropagator p.arena p.pairs.items p.lists.items p.trail p.loose.items };
}

impl Propagator {
    /// Nothing held and nothing true, over so many variables.
    pub fn new(alloc: Global, variables: u32) -> Result<Propagator, AllocError>
        requires { variables < 2 ^ 31 }
        ensures { IfOk result (λ p. p ≡ record { held = []; values = replicate (variables + 1) Truth.Open }) }
    {
        let lists = watch_lists(alloc, (variables as usize + 1) * 2)?;
        let trail = Trail::new(alloc, variables)?;
        Ok(Propagator {
            arena: Arena::new(alloc),
            pairs: Vec::new(alloc),
            lists,
            trail,
            loose: Vec::new(alloc),
        })
    }

    /// Adds a clause that is given, and takes all decisions back. The answer is the clause where all its literals are
    /// false. Where all but one are, that one is made true; else the clause watches two that are not false. In no
    /// case is anything propagated again.
    pub fn add_given(&mut self, literals: &[Lit]) -> Result<Option<ClauseRef>, AllocError>
        requires { VariablesBelow (length self.old.values) literals.now }
        ensures held { OnOk result (self.new.held ≡ self.old.held ++ literals.now ∷ []) }
        ensures size { length self.new.values ≡ length self.old.values }
    {
        let conflict = add_given(
            &mut self.arena,
            &mut self.pairs,
            self.lists.as_mut_slice(),
            &mut self.trail,
            &mut self.loose,
            literals,
        )?;
        match conflict {
            None => Ok(None),
            Some(place) => Ok(Some(ClauseRef::at(low(place)))),
        }
    }

    /// Adds a learned clause, and makes its literal `one` true, which is open; `other` is one of the
    /// highest level among its other literals, which are false. A clause of one literal, and one that is not as
    /// said here, is added as a given one.
    pub fn add_learned(
        &mut self,
        literals: &[Lit],
        one: Code,
        other: Code,
    ) -> Result<(), AllocError>
        requires { VariablesBelow (length self.old.values) literals.now }
        ensures held { OnOk result (self.new.held ≡ self.old.held ++ literals.now ∷ []) }
        ensures size { length self.new.values ≡ length self.old.values }
    {
        add_learned(
            &mut self.arena,
            &mut self.pairs,
            self.lists.as_mut_slice(),
            &mut self.trail,
            &mut self.loose,
            literals,
            one.number,
            other.number,
        )
    }

    /// The clause that was added last.
    pub fn last(&self) -> ClauseRef {
        ClauseRef {
            number: low(self.arena.len()),
        }
    }

    /// Looks at a clause no more where a later one is a part of it, literal for literal in the same order. Both stay held: where
    /// the later one is neither false nor unit, the other is not either.
    pub fn let_go(&mut self, clause: ClauseRef, by: ClauseRef)
        ensures { self.new ≡ self.old }
    {
        let_go(
            &self.arena,
            self.pairs.as_mut_slice(),
            self.lists.as_slice(),
            &self.trail,
            self.loose.as_slice(),
            clause.place(),
            by.place(),
        );
    }

    /// Makes a literal true by decision, in a level of its own. Where propagation is not at its end, or
    /// the literal has a value, nothing changes and the answer is false.
    pub fn decide(&mut self, code: Code) -> Result<bool, AllocError>
        ensures held { self.new.held ≡ self.old.held }
        ensures size { length self.new.values ≡ length self.old.values }
    {
        decide(&mut self.trail, code.number)
    }

    /// Makes a literal true at the present level. Where it has a value nothing changes, and the answer is
    /// false.
    pub fn assume(&mut self, code: Code) -> Result<bool, AllocError>
        ensures held { self.new.held ≡ self.old.held }
        ensures size { length self.new.values ≡ length self.old.values }
    {
        assume(&mut self.trail, code.number, ClauseRef::NONE)
    }

    /// Propagates to the end, or to a false clause.
    pub fn propagate(&mut self) -> Result<Option<ClauseRef>, AllocError>
        ensures held { self.new.held ≡ self.old.held }
        ensures size { length self.new.values ≡ length self.old.values }
    {
        let conflict = propagate(
            &self.arena,
            self.pairs.as_mut_slice(),
            self.lists.as_mut_slice(),
            &mut self.trail,
        )?;
        match conflict {
            None => Ok(None),
            Some(place) => Ok(Some(ClauseRef::at(place))),
        }
    }

    /// Takes back the decisions above a level, and what they led to.
    pub fn go_back(&mut self, level: u32)
        ensures held { self.new.held ≡ self.old.held }
        ensures size { length self.new.values ≡ length self.old.values }
    {
        go_back(&mut self.trail, level as usize);
    }

    /// Whether no clause is false or unit, as far as the watched literals show it: where all was
    /// propagated without a conflict they do.
    pub fn is_closed(&self) -> bool
        ensures { IsTrue result → IsClosed self.now.held self.now.values }
    {
        is_closed(
            &self.arena,
            self.pairs.as_slice(),
            self.lists.as_slice(),
            &self.trail,
            self.loose.as_slice(),
        )
    }

    /// The values of the variables.
    #[inline(always)]
    pub fn values(&self) -> &[Truth]
        ensures { result.now ≡ self.now.values }
    {
        self.trail.values()
    }

    /// The value of a literal.
    #[inline(always)]
    pub fn value(&self, code: Code) -> Truth {
        self.trail.value(code.number)
    }

    /// Why a literal is true.
    #[inline(always)]
    pub fn cause(&self, code: Code) -> Cause {
        self.trail.cause(code.number)
    }

    /// How many decisions stand.
    #[inline(always)]
    pub fn level(&self) -> u32 {
        low(self.trail.level())
    }

    /// How many literals are true.
    #[inline(always)]
    pub fn len(&self) -> usize {
        self.trail.len()
    }

    /// The true literal at a place, in the order in which they became so.
    #[inline(always)]
    pub fn literal_at(&self, place: usize) -> Code {
        Code {
            number: self.trail.literal_at(place),
        }
    }

    /// How many literals stood when the decision above a level was made; all of them where there is none.
    pub fn start_above(&self, level: u32) -> usize {
        self.trail.start_above(level as usize)
    }

    /// The literals of a clause, as numbers of `Code`.
    #[inline(always)]
    pub fn codes(&self, clause: ClauseRef) -> &[u32] {
        self.arena.codes(clause.place())
    }
}
