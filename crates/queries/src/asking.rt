ghost use Rattle.std.specs.Prelude.{◌≡◌, ◌<◌, ◌^◌, length, IfOk, OnOk};
ghost use Rattle.clause_core.specs.Formula.{Formula, BeginsWith};
ghost use Rattle.clause_core.specs.Satisfaction.{assigned, Satisfies};
ghost use Rattle.queries.specs.Comparisons.{Comparison};
ghost use Rattle.queries.specs.Questions.{QueryData, query_view, IsQueryOf, IsOfOneScan};
ghost use Rattle.queries.specs.Meaning.{Answers, Means};

use crate::decoded::Decoded;
use crate::query::Query;
use clause_core::{Assignment, Cnf};
use std::alloc::{AllocError, Global};

/// Who gives the formula of each query of what is compared.
pub trait Queries {
    /// What is compared.
    ghost compared: { Self → Comparison };

    /// The formula of a query: its clauses in the order of their numbers, and how many variables there are.
    ghost formula: { Self → QueryData → Formula };

    /// What the formulas of all queries for one scan from any pair begin with.
    ghost front: { Self → Formula };

    /// The formula of a query.
    fn query(&self, alloc: Global, query: &Query) -> Result<Cnf, AllocError>
        requires { IsQueryOf (compared self.now) (query_view query.now) }
        ensures { IfOk result (λ cnf. cnf ≡ formula self.now (query_view query.now)) };

    /// What the formulas of queries for one scan from any pair begin with.
    fn begin(&self, alloc: Global) -> Result<Cnf, AllocError>
        ensures { IfOk result (λ cnf. cnf ≡ front self.now) };

    /// Makes the formula of such a query from its beginning. After an error it has some of the clauses.
    fn complete(&self, alloc: Global, query: &Query, cnf: &mut Cnf) -> Result<(), AllocError>
        requires query { IsOfOneScan (query_view query.now) }
        requires begun { cnf.old ≡ front self.now }
        ensures { OnOk result (cnf.new ≡ formula self.now (query_view query.now)) };

    /// What a solution of a query's formula stands for.
    fn decode(
        &self,
        alloc: Global,
        query: &Query,
        found: &Assignment,
    ) -> Result<Decoded, AllocError>
        requires query { IsQueryOf (compared self.now) (query_view query.now) }
        requires found { Satisfies (assigned found.now) (formula self.now (query_view query.now)).clauses }
        ensures { IfOk result (λ d. Answers (compared self.now) (query_view query.now) (record { old = d.old.items; new = d.new.items }) d.rows.items) };

    /// The laws of the formulas: each has a solution exactly where its query has an answer, and its clauses are few enough to
    /// be numbered; those of queries for one scan from any pair begin alike. It does nothing.
    fn laws(&self)
        ensures means { (q : QueryData) → IsQueryOf (compared self.now) q → Means (compared self.now) q (formula self.now q) }
        ensures few { (q : QueryData) → IsQueryOf (compared self.now) q → length (formula self.now q).clauses < 2 ^ 31 }
        ensures begins { (q : QueryData) → IsOfOneScan q → BeginsWith (front self.now) (formula self.now q) };
}
