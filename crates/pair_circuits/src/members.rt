ghost use Rattle.std.specs.Prelude.{◌≡◌, ◌∷◌, ◌++◌, [], if◌then◌else◌, IfOk, OnOk};
ghost use Rattle.queries.specs.Sets.{members};
ghost use Rattle.query_formulas.specs.QueryClauses.{members_of};

use clause_core::Lit;
use queries::CandidateSet;
use std::alloc::{AllocError, Global};

// Adds a literal where it is asked for.
fn push_where(asked: bool, lit: Lit, found: &mut Vec<Lit>) -> Result<(), AllocError>
    ensures { OnOk result (found.new.items ≡ found.old.items ++ (if asked then lit ∷ [] else [])) }
{
    if asked {
        found.push(lit)?;
    }
    Ok(())
}

/// The literals of the candidates of a set, the first of the list being that of candidate 0.
pub fn member_lits(alloc: Global, set: &CandidateSet, lits: &[Lit]) -> Result<Vec<Lit>, AllocError>
    ensures { IfOk result (λ all. all.items ≡ members_of (members set.now) lits.now) }
{
    let mut found = Vec::new(alloc);
    for i in 0..lits.len() {
        push_where(set.has(i), lits[i], &mut found)?;
    }
    Ok(found)
}
