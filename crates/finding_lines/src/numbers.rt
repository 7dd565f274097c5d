ghost use Rattle.std.specs.Prelude.{◌≡◌, ◌++◌, ◌∷◌, [], IfOk, OnErr, OnOk};
ghost use Rattle.finding_lines.specs.Numbers.{IsNumber, AreNumbers};

use plc_types::Value;
use std::alloc::{AllocError, Global};
use std::marker::Model;

/// Numbers of a finding in their order: contracts see the list of them.
#[derive(Drop)]
pub struct Numbers {
    numbers: Vec<Value>,
}

impl Model for Numbers {
    ghost use Rattle.std.specs.Prelude.{List, ℤ};
    ghost use Rattle.finding_lines.specs.Numbers.{AreNumbers};

    ghost Value = { List ℤ };

    ghost view = { λ n. n.numbers.items };

    ghost invariant = { λ n. AreNumbers n.numbers.items };
}

impl Numbers {
    /// No number.
    pub fn new(alloc: Global) -> Self
        ensures { result ≡ [] }
    {
        Numbers {
            numbers: Vec::new(alloc),
        }
    }

    /// No number, with room for some.
    pub fn with_room(alloc: Global, count: usize) -> Result<Self, AllocError>
        ensures { IfOk result (λ n. n ≡ []) }
    {
        let numbers = Vec::with_capacity(alloc, count)?;
        Ok(Numbers { numbers })
    }

    /// The numbers in their order.
    #[inline]
    pub fn as_slice(&self) -> &[Value]
        ensures same { result.now ≡ self.now }
        ensures numbers { AreNumbers self.now }
    {
        self.numbers.as_slice()
    }

    /// Adds a number behind the others.
    #[inline(always)]
    pub fn push(&mut self, number: Value) -> Result<(), AllocError>
        requires { IsNumber number }
        ensures ok { OnOk result (self.new ≡ self.old ++ number ∷ []) }
        ensures err { OnErr result (self.new ≡ self.old) }
    {
        match self.numbers.push(number) {
            Ok(()) => Ok(()),
            Err(_) => Err(AllocError),
        }
    }
}
