ghost use Rattle.std.specs.Prelude.{◌≡◌, ℕ, ◌++◌, ◌∷◌, [], OnErr, OnOk};

use smallvec::SmallVec;
use std::alloc::{AllocError, Global};
use std::marker::Model;

/// The numbers of held clauses, from 1, in the order in which they are looked at.
#[derive(Drop)]
pub struct Hints {
    numbers: SmallVec<u32, 6>,
}

impl Model for Hints {
    ghost use Rattle.std.specs.Prelude.{List, ℕ};

    ghost Value = { List ℕ };

    ghost view = { λ h. h.numbers.items };
}

impl Hints {
    /// No hint.
    pub fn new(alloc: Global) -> Self
        ensures { result ≡ [] }
    {
        Hints {
            numbers: SmallVec::new(alloc),
        }
    }

    /// The numbers in their order.
    #[inline]
    pub fn numbers(&self) -> &[u32]
        ensures { result.now ≡ self.now }
    {
        self.numbers.as_slice()
    }

    /// Adds a number behind the others.
    #[inline]
    pub fn push(&mut self, number: u32) -> Result<(), AllocError>
        ensures ok { OnOk result (self.new ≡ self.old ++ number ∷ []) }
        ensures err { OnErr result (self.new ≡ self.old) }
    {
        match self.numbers.push(number) {
            Ok(()) => Ok(()),
            Err(_) => Err(AllocError),
        }
    }
}
