ghost use Rattle.std.specs.Prelude.{◌≡◌, ℕ, ◌<◌, ◌≤◌, ◌+◌, ◌^◌, length, IfOk};
ghost use Rattle.clause_core.specs.Decisions.{IsDecided};

use crate::assignment::Assignment;
use crate::cnf::Cnf;
use crate::log::Log;
use std::alloc::{AllocError, Global};

/// What a decider finds out of a formula.
#[derive(Drop)]
pub enum Decided {
    /// An assignment that satisfies every clause.
    Found(Assignment),
    /// A derivation of the empty clause.
    Refuted(Log),
    /// As many steps as were allowed.
    Spent(Log),
}

/// A procedure that decides formulas within a limit of derived clauses.
pub trait Decider {
    /// Decides the formula by at most `limit` steps. It may put clauses behind those of the formula as long as it decides.
    fn decide(&mut self, alloc: Global, cnf: &mut Cnf, limit: u32) -> Result<Decided, AllocError>
        requires limit { 1 ≤ limit }
        requires few { length cnf.old.clauses + limit < 2 ^ 32 }
        ensures decided { IfOk result (IsDecided cnf.old limit) }
        ensures same { cnf.new ≡ cnf.old };
}
