// What a call in an expression calls.
ghost use Rattle.std.specs.Prelude.{◌≡◌, ◌++◌, OnOk};
ghost use Rattle.naming.specs.Circles.{called};
ghost use Rattle.naming.specs.DeclarationUses.{numbers_in};

use std::alloc::AllocError;

/// What a call in an expression calls: a standard function, the FUNCTION of a number, or nothing that is known.
#[derive(Clone, Copy)]
pub enum Callee {
    Standard,
    Function(usize),
    Unknown,
}

/// Appends the FUNCTION that is called.
pub fn append_called(calls: &mut Vec<usize>, callee: Callee) -> Result<(), AllocError>
    ensures { OnOk result (calls.new.items ≡ calls.old.items ++ called callee) }
{
    if let Callee::Function(number) = callee {
        calls.push(number)?;
    }
    Ok(())
}

/// Appends a number, where there is one.
pub fn append_number(numbers: &mut Vec<usize>, number: Option<usize>) -> Result<(), AllocError>
    ensures { OnOk result (numbers.new.items ≡ numbers.old.items ++ numbers_in number) }
{
    if let Some(number) = number {
        numbers.push(number)?;
    }
    Ok(())
}
