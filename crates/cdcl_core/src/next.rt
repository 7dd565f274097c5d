// The derivation that always goes on: decides the variables in rising order, and learns the decisions.

ghost use Rattle.std.specs.Prelude.{◌≡◌, ℕ, ◌<◌, ◌+◌, ◌-◌, ◌^◌, length, IsTrue, IfOk};
ghost use Rattle.std.specs.List.{list_all};
ghost use Rattle.clause_core.specs.Clauses.{is_within};
ghost use Rattle.cdcl_core.specs.Next.{IsNext};

use crate::noting::propagate_from;
use clause_core::{Clause, Lit, Step, Truth};
use std::alloc::{AllocError, Global};

/// What a step of the decision comes to.
#[derive(Drop)]
pub enum Next {
    Found,
    Derived(Step),
}

/// Decides the variables in order; the answer is a step that may be taken, or that the values satisfy all.
pub fn next_step(
    alloc: Global,
    variables: u32,
    held: &[Clause],
    values: &mut [Truth],
) -> Result<Next, AllocError>
    requires held { IsTrue (list_all (is_within variables) held.now) }
    requires size { length values.old ≡ variables + 1 }
    requires few { length held.now < 2 ^ 32 - 1 }
    requires small { variables < 2 ^ 32 - 1 }
    ensures { IfOk result (IsNext variables held.now values.new) }
{
    let mut clause = Clause::new(alloc);
    match propagate_from(alloc, held, values, clause.literals())? {
        None => {}
        Some(hints) => {
            return Ok(Next::Derived(Step { clause, hints }));
        }
    }
    for variable in 1..variables + 1 {
        match values[variable as usize] {
            Truth::Open => {
                clause.push(Lit {
                    variable,
                    negative: true,
                })?;
                match propagate_from(alloc, held, values, clause.literals())? {
                    None => {}
                    Some(hints) => {
                        return Ok(Next::Derived(Step { clause, hints }));
                    }
                }
            }
            _ => {}
        }
    }
    Ok(Next::Found)
}
