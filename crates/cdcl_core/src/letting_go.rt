// Clauses that are held no more, since another one is a part of them.

ghost use Rattle.std.specs.Prelude.{◌≡◌, ◌<◌, ◌≤◌, ◌+◌, ◌^◌, ◌++◌, length, List, IsTrue, OnOk};
ghost use Rattle.clause_core.specs.Deletions.{IsDeletion};
ghost use Rattle.clause_core.specs.Formula.{Formula, BeginsWith};
ghost use Rattle.clause_core.specs.declared.literal.Lit.{Lit};
ghost use Rattle.cdcl_core.specs.Deleting.{Deletes};

use crate::search::{Covered, Search};
use clause_core::{Cnf, Log, is_always, is_covered_by};
use std::alloc::AllocError;

/// Whether the clause at a place may be held no more, the first `given` being the formula's: whether that at the other place is held and is a part
/// of it.
fn may_go(cnf: &Cnf, given: usize, covered: Covered) -> bool
    ensures { IsTrue result → IsDeletion cnf.now.variables given cnf.now.clauses (covered.place + 1) }
{
    if cnf.variables() == 0 || covered.place < given {
        return false;
    }
    let held = cnf.clauses();
    match held.get(covered.place) {
        None => false,
        Some(clause) => {
            let literals = clause.literals();
            !is_always(literals) && is_covered_by(held, covered.by, covered.place + 1, literals)
        }
    }
}

/// Lets go of the clauses that the search answers, as far as they are covered and stand among the first `count`, and logs it.
pub(crate) fn let_covered_go<S: Search>(
    search: &mut S,
    cnf: &mut Cnf,
    log: &mut Log,
    given: usize,
    count: usize,
) -> Result<(), AllocError>
    requires taken { (taken more : List (List Lit)) × S.has_taken search.old taken × (cnf.old.clauses ≡ taken ++ more) × (length taken ≡ count) }
    requires few { length cnf.old.clauses < 2 ^ 32 }
    ensures deletes { OnOk result (Deletes given cnf.old cnf.new log.old log.new) }
    ensures begins { (f : Formula) → length f.clauses ≤ given → BeginsWith f cnf.old → BeginsWith f cnf.new }
    ensures taken { OnOk result ((taken more : List (List Lit)) × S.has_taken search.new taken × (cnf.new.clauses ≡ taken ++ more)) }
    ensures places { S.places search.new ≡ S.places search.old }
{
    for _ in 0..count {
        let Some(covered) = search.covered() else {
            break;
        };
        if covered.place >= count || !may_go(cnf, given, covered) {
            continue;
        }
        log.push_deletion(covered.place as u32 + 1)?;
        cnf.let_go(covered.place);
        search.let_go(covered)?;
    }
    Ok(())
}
