ghost use Rattle.std.specs.Prelude.{◌≡◌, ℕ, ◌<◌, ◌+◌, length, IfOk, slice_index_or, slice_set, replicate};
ghost use Rattle.clause_core.specs.Values.{value, put_true, put_false};
ghost use Rattle.clause_core.specs.Undoing.{reopened};
ghost use Rattle.clause_core.specs.Steps.{assume_false, VariablesBelow};

use crate::literal::Lit;
use std::alloc::{AllocError, Global};

/// What a partial assignment gives a variable.
#[derive(Clone, Copy)]
pub enum Truth {
    /// No value yet.
    Open,
    True,
    False,
}

/// The value of a literal.
#[inline]
pub fn value(values: &[Truth], literal: Lit) -> Truth
    requires { literal.variable < length values.now }
    ensures { result ≡ value values.now literal }
{
    let of_variable = values[literal.variable as usize];
    if !literal.negative {
        return of_variable;
    }
    match of_variable {
        Truth::Open => Truth::Open,
        Truth::True => Truth::False,
        Truth::False => Truth::True,
    }
}

/// Gives the literal the value true.
#[inline]
pub fn put_true(values: &mut [Truth], literal: Lit)
    requires { literal.variable < length values.old }
    ensures { values.new ≡ put_true values.old literal }
{
    values[literal.variable as usize] = if literal.negative {
        Truth::False
    } else {
        Truth::True
    };
}

/// Gives the literal the value false.
#[inline]
pub fn put_false(values: &mut [Truth], literal: Lit)
    requires { literal.variable < length values.old }
    ensures { values.new ≡ put_false values.old literal }
{
    values[literal.variable as usize] = if literal.negative {
        Truth::True
    } else {
        Truth::False
    };
}

/// All variables up to `variables`, open.
pub fn unassigned(alloc: Global, variables: u32) -> Result<Vec<Truth>, AllocError>
    ensures { IfOk result (λ v. v.items ≡ replicate (variables + 1) Truth.Open) }
{
    vec![in alloc; Truth::Open; variables as usize + 1]
}

/// Makes each literal false.
pub fn assume_false(values: &mut [Truth], literals: &[Lit])
    requires { VariablesBelow (length values.old) literals.now }
    ensures { values.new ≡ assume_false values.old literals.now }
{
    for literal in literals {
        put_false(values, *literal);
    }
}

/// Opens the variable of each literal.
pub fn reopen(values: &mut [Truth], literals: &[Lit])
    requires { VariablesBelow (length values.old) literals.now }
    ensures { values.new ≡ reopened values.old literals.now }
{
    for literal in literals {
        values[literal.variable as usize] = Truth::Open;
    }
}

/// Opens every variable.
pub fn clear(values: &mut [Truth])
    ensures { values.new ≡ replicate (length values.old) Truth.Open }
{
    values.fill(Truth::Open);
}
