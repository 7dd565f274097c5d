// A search for the next step, of which little is asked: each proposal is tested before it is taken.

ghost use Rattle.std.specs.Prelude.{◌≡◌, ℕ, List, ◌++◌, slice_set, IsTrue, OnOk};
ghost use Rattle.clause_core.specs.declared.literal.Lit.{Lit};
ghost use Rattle.clause_core.specs.declared.truth.Truth.{Truth};
ghost use Rattle.clause_core.specs.Steps.{AllVariablesBelow};
ghost use Rattle.clause_core.specs.Propagation.{IsClosed};
ghost use Rattle.clause_core.specs.Deletions.{always};

use clause_core::{Clause, Step, Truth};
use std::alloc::AllocError;

/// What a search proposes over the clauses that are held.
#[derive(Drop)]
pub enum Proposal {
    /// The values of the search satisfy all that is held.
    Solution,
    /// The clause of the step follows, and the values of the search show that it is fresh.
    Derivation(Step),
}

/// A derived clause, and one that is a part of it, by their places among all clauses, from 0.
#[derive(Clone, Copy)]
pub struct Covered {
    pub place: usize,
    pub by: usize,
}

/// A search that goes from proposal to proposal. A wrong proposal is refused, and costs time alone. What
/// binds the search is that it knows when nothing is left to propagate.
pub trait Search {
    /// It has taken in these clauses.
    ghost has_taken: { Self → List (List Lit) → Type 0 };

    /// The values by variable, from place 1.
    ghost values: { Self → List Truth };

    /// One more than the greatest variable that it takes in.
    ghost places: { Self → ℕ };

    /// Takes in the clauses behind those that it has taken in, and goes on to the next solution or conflict.
    fn propose(&mut self, held: &[Clause]) -> Result<Proposal, AllocError>
        requires taken { (taken more : List (List Lit)) × has_taken self.old taken × (held.now ≡ taken ++ more) }
        requires within { AllVariablesBelow (places self.old) held.now }
        ensures taken { OnOk result (has_taken self.new held.now) }
        ensures places { places self.new ≡ places self.old };

    /// The values by variable, from place 1.
    fn values(&self) -> &[Truth]
        ensures { result.now ≡ values self.now };

    /// Whether it is known that no clause is unit or false under the values; all that are held are taken in.
    fn is_closed(&self, held: &[Clause]) -> bool
        requires taken { has_taken self.now held.now }
        requires within { AllVariablesBelow (places self.now) held.now }
        ensures { IsTrue result → IsClosed held.now (values self.now) };

    /// The derivation that was proposed is taken: its clause will be the last that is held.
    fn learn(&mut self) -> Result<(), AllocError>
        ensures taken { (taken : List (List Lit)) → has_taken self.old taken → has_taken self.new taken }
        ensures places { places self.new ≡ places self.old };

    /// The proposal is refused: another clause will be the last that is held.
    fn restart(&mut self) -> Result<(), AllocError>
        ensures taken { (taken : List (List Lit)) → has_taken self.old taken → has_taken self.new taken }
        ensures places { places self.new ≡ places self.old };

    /// A derived clause that another one is a part of, the one that is held last or one before it, as far as the search knows one. It
    /// answers one after the other.
    fn covered(&mut self) -> Option<Covered>
        ensures taken { (taken : List (List Lit)) → has_taken self.old taken → has_taken self.new taken }
        ensures places { places self.new ≡ places self.old };

    /// The covered clause is held no more: what is always true stands in its place.
    fn let_go(&mut self, covered: Covered) -> Result<(), AllocError>
        ensures taken { (taken : List (List Lit)) → has_taken self.old taken → has_taken self.new (slice_set taken covered.place always) }
        ensures places { places self.new ≡ places self.old };
}
