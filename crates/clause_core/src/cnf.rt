ghost use Rattle.std.specs.Prelude.{◌≡◌, ℕ, ◌<◌, ◌≤◌, ◌+◌, ◌-◌, ◌^◌, ◌++◌, ◌∷◌, [], IsTrue, OnErr, OnOk, length};
ghost use Rattle.std.specs.List.{list_all};
ghost use Rattle.clause_core.specs.Clauses.{is_within, is_set, set_of, rises};
ghost use Rattle.clause_core.specs.Formula.{with_clause, first_clauses};
ghost use Rattle.clause_core.specs.Deletions.{without_clause};

use crate::clause::Clause;
use crate::literal::Lit;
use std::alloc::{AllocError, Global};
use std::marker::Model;

/// A formula in conjunctive normal form: clauses, numbered from 1, over variables numbered from 1.
///
/// A clause is a set of literals, kept as the list of them in order of their variables, a variable
/// before its negative. One that has both is kept; it is true under every assignment.
#[derive(Drop)]
pub struct Cnf {
    alloc: Global,
    variables: u32,
    clauses: Vec<Clause>,
}

impl Model for Cnf {
    ghost use Rattle.clause_core.specs.Formula.{Formula};

    ghost Value = { Formula };

    ghost use Rattle.clause_core.specs.Inside.{formula_of, IsSound};

    ghost view = { formula_of };

    ghost invariant = { IsSound };
}

impl Cnf {
    /// The formula of no clause over this many variables.
    pub fn new(alloc: Global, variables: u32) -> Self
        requires { variables < 2 ^ 32 - 1 }
        ensures { result ≡ record { variables = variables; clauses = [] } }
    {
        Cnf {
            alloc,
            variables,
            clauses: Vec::new(alloc),
        }
    }

    /// How many variables there are.
    pub fn variables(&self) -> u32
        ensures same { result ≡ self.now.variables }
        ensures few { result < 2 ^ 32 - 1 }
    {
        self.variables
    }

    /// The clauses in the order of their numbers.
    pub fn clauses(&self) -> &[Clause]
        ensures same { result.now ≡ self.now.clauses }
        ensures within { IsTrue (list_all (is_within self.now.variables) result.now) }
        ensures sets { IsTrue (list_all is_set result.now) }
    {
        self.clauses.as_slice()
    }

    // Adds a clause that is a set of the formula's literals.
    fn keep(&mut self, clause: Clause) -> Result<(), AllocError>
        requires within { IsTrue (is_within self.old.variables clause) }
        requires set { IsTrue (is_set clause) }
        ensures ok { OnOk result (self.new ≡ with_clause self.old clause) }
        ensures err { OnErr result (self.new ≡ self.old) }
    {
        let Ok(()) = self.clauses.push(clause) else {
            return Err(AllocError);
        };
        Ok(())
    }

    /// Adds a clause. The literals may stand in any order, and equal ones count once.
    pub fn push(&mut self, literals: &[Lit]) -> Result<(), AllocError>
        requires { IsTrue (is_within self.old.variables literals.now) }
        ensures ok { OnOk result (self.new ≡ with_clause self.old (set_of literals.now)) }
        ensures err { OnErr result (self.new ≡ self.old) }
    {
        let clause = Clause::from_set(self.alloc, literals)?;
        self.keep(clause)
    }

    /// Adds a clause whose variables rise, as it stands.
    pub fn push_rising(&mut self, literals: &[Lit]) -> Result<(), AllocError>
        requires { IsTrue (rises self.old.variables literals.now) }
        ensures ok { OnOk result (self.new ≡ with_clause self.old literals.now) }
        ensures err { OnErr result (self.new ≡ self.old) }
    {
        let clause = Clause::from_slice(self.alloc, literals)?;
        self.keep(clause)
    }

    /// Keeps the first clauses, so many of them.
    pub fn truncate(&mut self, count: usize)
        ensures { self.new ≡ first_clauses count self.old }
    {
        self.clauses.truncate(count);
    }

    /// Holds the clause at a place, from 0, no more: what is always true stands there from now on, and the clause's memory is given
    /// back. A place past the last clause changes nothing.
    pub fn let_go(&mut self, place: usize)
        requires { 1 ≤ self.old.variables }
        ensures { self.new ≡ without_clause place self.old }
    {
        if place < self.clauses.len() {
            self.clauses[place] = Clause::always(self.alloc);
        }
    }
}
