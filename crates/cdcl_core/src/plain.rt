// The plain decider.

ghost use Rattle.std.specs.Prelude.{◌≡◌, ◌≤◌, ◌<◌, ◌+◌, ◌^◌, length, IfOk};
ghost use Rattle.clause_core.specs.Decisions.{IsDecided};

use crate::decide::decide_by;
use crate::list_search::ListSearch;
use clause_core::{Cnf, Decided, Decider};
use std::alloc::{AllocError, Global};
use std::marker::Model;

/// A decider that is simple and slow. Contracts see how many proposals of its search the last decision
/// refused; no clause bounds them, and a search without a fault has none.
#[derive(Drop)]
pub struct Plain {
    refused: u64,
}

impl Model for Plain {
    ghost use Rattle.std.specs.Prelude.{ℕ};

    ghost Value = { ℕ };

    ghost view = { λ p. p.refused };
}

impl Plain {
    /// A decider that has decided nothing yet.
    pub fn new() -> Self
        ensures { result ≡ 0 }
    {
        Plain { refused: 0 }
    }

    /// How many proposals the last decision refused.
    pub fn refused_proposals(&self) -> u64
        ensures { result ≡ self.now }
    {
        self.refused
    }
}

impl Decider for Plain {
    fn decide(&mut self, alloc: Global, cnf: &mut Cnf, limit: u32) -> Result<Decided, AllocError> {
        let mut search = ListSearch::new(alloc, cnf.variables())?;
        self.refused = 0;
        decide_by(alloc, &mut search, cnf, limit, &mut self.refused)
    }
}
