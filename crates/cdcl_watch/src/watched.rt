// The fast decider.

ghost use Rattle.std.specs.Prelude.{◌≡◌, ◌≤◌, ◌<◌, ◌+◌, ◌^◌, length, IfOk};
ghost use Rattle.clause_core.specs.Decisions.{IsDecided};

use crate::guide::Guide;
use crate::order::Order;
use crate::watch_search::WatchSearch;
use cdcl_core::{Plain, decide_by};
use clause_core::{Cnf, Decided, Decider};
use std::alloc::{AllocError, Global};
use std::marker::Model;

/// Formulas of this many variables or more are decided by the plain search: a literal would not fit its code.
const MOST_VARIABLES: u32 = 0x8000_0000;

/// A decider that is fast. It keeps activities and phases of variables from one decision to the next, for
/// formulas that are alike. Contracts see how many proposals of its search the last decision refused; no
/// clause bounds them, and a search without a fault has none.
#[derive(Drop)]
pub struct Watched {
    refused: u64,
    order: Option<Order>,
}

impl Model for Watched {
    ghost use Rattle.std.specs.Prelude.{ℕ};

    ghost Value = { ℕ };

    ghost view = { λ w. w.refused };
}

impl Watched {
    /// A decider that has decided nothing yet.
    pub fn new() -> Self
        ensures { result ≡ 0 }
    {
        Watched {
            refused: 0,
            order: None,
        }
    }

    /// How many proposals the last decision refused.
    pub fn refused_proposals(&self) -> u64
        ensures { result ≡ self.now }
    {
        self.refused
    }

    // Decides by the plain search.
    fn decide_plainly(
        &mut self,
        alloc: Global,
        cnf: &mut Cnf,
        limit: u32,
    ) -> Result<Decided, AllocError>
        requires limit { 1 ≤ limit }
        requires few { length cnf.old.clauses + limit < 2 ^ 32 }
        ensures decided { IfOk result (IsDecided cnf.old limit) }
        ensures same { cnf.new ≡ cnf.old }
    {
        let mut plain = Plain::new();
        let decided = plain.decide(alloc, cnf, limit);
        self.refused = plain.refused_proposals();
        decided
    }
}

impl Decider for Watched {
    fn decide(&mut self, alloc: Global, cnf: &mut Cnf, limit: u32) -> Result<Decided, AllocError> {
        self.refused = 0;
        if cnf.variables() >= MOST_VARIABLES {
            return self.decide_plainly(alloc, cnf, limit);
        }
        let order = match self.order.take() {
            Some(order) => order,
            None => Order::new(alloc),
        };
        let mut search = WatchSearch::new(alloc, cnf.variables(), order, None)?;
        let decided = decide_by(alloc, &mut search, cnf, limit, &mut self.refused)?;
        self.order = Some(search.take_order());
        Ok(decided)
    }
}

/// Decides a formula, and derives the clauses of a guide first.
pub fn decide_guided(
    alloc: Global,
    cnf: &mut Cnf,
    limit: u32,
    guide: &Guide,
) -> Result<Decided, AllocError>
    requires limit { 1 ≤ limit }
    requires few { length cnf.old.clauses + limit < 2 ^ 32 }
    ensures decided { IfOk result (IsDecided cnf.old limit) }
    ensures same { cnf.new ≡ cnf.old }
{
    if cnf.variables() >= MOST_VARIABLES {
        let mut plain = Plain::new();
        return plain.decide(alloc, cnf, limit);
    }
    let order = Order::new(alloc);
    let mut search = WatchSearch::new(alloc, cnf.variables(), order, Some(guide))?;
    let mut refused = 0;
    decide_by(alloc, &mut search, cnf, limit, &mut refused)
}
