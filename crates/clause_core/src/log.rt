ghost use Rattle.std.specs.Prelude.{◌≡◌, ◌++◌, ◌∷◌, [], length, OnErr, OnOk};
ghost use Rattle.clause_core.specs.declared.log.Entry.TheVariants.{Derived, Deleted};

use crate::step::Step;
use std::alloc::{AllocError, Global};
use std::marker::Model;

/// What stands in a log.
#[derive(Drop)]
pub enum Entry {
    /// A clause that is held from here on.
    Derived(Step),
    /// The number, from 1, of a derived clause that is held from here on no more: another one that is held is a part of it.
    Deleted(u32),
}

/// A derivation: entries, each over what the formula and those before it hold.
#[derive(Drop)]
pub struct Log {
    entries: Vec<Entry>,
}

impl Model for Log {
    ghost use Rattle.std.specs.Prelude.{List};
    ghost use Rattle.clause_core.specs.declared.log.Entry.{Entry};

    ghost Value = { List Entry };

    ghost view = { λ l. l.entries.items };
}

impl Log {
    /// The log of no entry.
    pub fn new(alloc: Global) -> Self
        ensures { result ≡ [] }
    {
        Log {
            entries: Vec::new(alloc),
        }
    }

    /// The entries in their order.
    #[inline]
    pub fn entries(&self) -> &[Entry]
        ensures { result.now ≡ self.now }
    {
        self.entries.as_slice()
    }

    // Adds an entry behind the others.
    fn add(&mut self, entry: Entry) -> Result<(), AllocError>
        ensures ok { OnOk result (self.new ≡ self.old ++ entry ∷ []) }
        ensures err { OnErr result (self.new ≡ self.old) }
    {
        match self.entries.push(entry) {
            Ok(()) => Ok(()),
            Err(_) => Err(AllocError),
        }
    }

    /// Adds a derived clause behind the others.
    pub fn push(&mut self, step: Step) -> Result<(), AllocError>
        ensures ok { OnOk result (self.new ≡ self.old ++ Derived step ∷ []) }
        ensures err { OnErr result (self.new ≡ self.old) }
    {
        self.add(Entry::Derived(step))
    }

    /// Adds the deletion of a derived clause, by its number from 1.
    pub fn push_deletion(&mut self, number: u32) -> Result<(), AllocError>
        ensures ok { OnOk result (self.new ≡ self.old ++ Deleted number ∷ []) }
        ensures err { OnErr result (self.new ≡ self.old) }
    {
        self.add(Entry::Deleted(number))
    }
}
