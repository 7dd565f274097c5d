ghost use Rattle.std.specs.Prelude.{◌≡◌, ℕ, Bool, List, ◌<◌, ◌≤◌, ◌+◌, ◌++◌, ◌∷◌, [], length, false, insert, IsTrue, IfOk, OnErr, OnOk};
ghost use Rattle.std.specs.List.{list_any};
ghost use Rattle.clause_core.specs.declared.literal.Lit.{Lit};
ghost use Rattle.clause_core.specs.Clauses.{is_set, rises, is_within, set_of, inserted, place_in};
ghost use Rattle.clause_core.specs.Deletions.{always};

use crate::literal::Lit;
use smallvec::SmallVec;
use std::alloc::{AllocError, Global};
use std::marker::Model;

/// A clause, the disjunction of its literals: contracts see the list of them.
#[derive(Drop)]
pub struct Clause {
    literals: SmallVec<Lit, 3>,
}

impl Model for Clause {
    ghost use Rattle.std.specs.Prelude.{List};
    ghost use Rattle.clause_core.specs.declared.literal.Lit.{Lit};

    ghost Value = { List Lit };

    ghost view = { λ c. c.literals.items };
}

impl Clause {
    /// The empty clause.
    pub fn new(alloc: Global) -> Self
        ensures { result ≡ [] }
    {
        Clause {
            literals: SmallVec::new(alloc),
        }
    }

    /// Variable 1 or its negation, which takes no memory.
    pub fn always(alloc: Global) -> Self
        ensures { result ≡ always }
    {
        let mut literals = SmallVec::new(alloc);
        literals.push_reserved(Lit {
            variable: 1,
            negative: false,
        });
        literals.push_reserved(Lit {
            variable: 1,
            negative: true,
        });
        Clause { literals }
    }

    /// The literals, in the order in which they are kept.
    #[inline]
    pub fn literals(&self) -> &[Lit]
        ensures { result.now ≡ self.now }
    {
        self.literals.as_slice()
    }

    /// Adds a literal behind the others.
    #[inline]
    pub fn push(&mut self, literal: Lit) -> Result<(), AllocError>
        ensures ok { OnOk result (self.new ≡ self.old ++ literal ∷ []) }
        ensures err { OnErr result (self.new ≡ self.old) }
    {
        match self.literals.push(literal) {
            Ok(()) => Ok(()),
            Err(_) => Err(AllocError),
        }
    }

    /// The clause of these literals as they stand.
    pub fn from_slice(alloc: Global, literals: &[Lit]) -> Result<Self, AllocError>
        ensures { IfOk result (λ c. c ≡ literals.now) }
    {
        let literals = SmallVec::from_slice(alloc, literals)?;
        Ok(Clause { literals })
    }

    /// The clause of these literals as a set: in order, none twice.
    pub fn from_set(alloc: Global, literals: &[Lit]) -> Result<Self, AllocError>
        ensures { IfOk result (λ c. c ≡ set_of literals.now) }
    {
        let mut clause = Clause::new(alloc);
        for literal in literals {
            clause.insert(*literal)?;
        }
        Ok(clause)
    }

    /// Puts a literal in its place, unless it is there already.
    fn insert(&mut self, literal: Lit) -> Result<(), AllocError>
        ensures { OnOk result (self.new ≡ inserted literal self.old) }
    {
        let place = self.place_for(literal);
        if self.has_at(place, literal) {
            return Ok(());
        }
        match self.literals.insert(place, literal) {
            Ok(()) => Ok(()),
            Err(_) => Err(AllocError),
        }
    }

    /// Whether the literal stands in its place already.
    fn has_at(&self, place: usize, literal: Lit) -> bool
        requires { place ≡ place_in literal self.now }
        ensures present { IsTrue result → inserted literal self.now ≡ self.now }
        ensures absent { result ≡ false → inserted literal self.now ≡ insert self.now place literal }
    {
        match self.literals.as_slice().get(place) {
            None => false,
            Some(other) => other.rank() == literal.rank(),
        }
    }

    /// How many literals stand before the literal's place.
    fn place_for(&self, literal: Lit) -> usize
        ensures place { result ≡ place_in literal self.now }
        ensures inside { result ≤ length self.now }
    {
        let mut place = 0;
        for other in self.literals.as_slice() {
            if other.rank() >= literal.rank() {
                return place;
            }
            place += 1;
        }
        place
    }
}

/// The set of some literals has a literal that passes a test exactly where they have.
pub fn law_set_of()
    ensures same { (literals : List Lit) (test : Lit → Bool)
        → list_any test (set_of literals) ≡ list_any test literals }
    ensures order { (literals : List Lit) → IsTrue (is_set (set_of literals)) }
{}

/// Whether each variable lies in 1 to `variables`.
pub fn is_within(variables: u32, literals: &[Lit]) -> bool
    ensures { result ≡ is_within variables literals.now }
{
    for literal in literals {
        if literal.variable == 0 || literal.variable > variables {
            return false;
        }
    }
    true
}

/// Whether the variables rise and lie in 1 to `variables`.
pub fn is_rising(variables: u32, literals: &[Lit]) -> bool
    ensures { result ≡ rises variables literals.now }
{
    let mut last = 0;
    for literal in literals {
        if literal.variable <= last || literal.variable > variables {
            return false;
        }
        last = literal.variable;
    }
    true
}
