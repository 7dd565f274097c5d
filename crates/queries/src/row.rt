ghost use Rattle.std.specs.Prelude.{◌≡◌, ◌++◌, ◌∷◌, [], OnErr, OnOk};

use plc_types::Value;
use std::alloc::{AllocError, Global};
use std::marker::Model;

/// The inputs of one scan, in their order: contracts see the list of them.
#[derive(Drop)]
pub struct Row {
    numbers: Vec<Value>,
}

impl Model for Row {
    ghost use Rattle.std.specs.Prelude.{List, ℤ};

    ghost Value = { List ℤ };

    ghost view = { λ r. r.numbers.items };
}

impl Row {
    /// No input.
    pub fn new(alloc: Global) -> Self
        ensures { result ≡ [] }
    {
        Row {
            numbers: Vec::new(alloc),
        }
    }

    /// The inputs in their order.
    #[inline]
    pub fn as_slice(&self) -> &[Value]
        ensures { result.now ≡ self.now }
    {
        self.numbers.as_slice()
    }

    /// Adds an input behind the others.
    pub fn push(&mut self, number: Value) -> Result<(), AllocError>
        ensures ok { OnOk result (self.new ≡ self.old ++ number ∷ []) }
        ensures err { OnErr result (self.new ≡ self.old) }
    {
        match self.numbers.push(number) {
            Ok(()) => Ok(()),
            Err(_) => Err(AllocError),
        }
    }
}
