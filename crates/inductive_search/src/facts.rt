// What holds before a scan: cells are in range, the candidates of a set hold, and the row is allowed.
use clause_core::Lit;
use cone_search::ConeSearch;
use pair_circuits::ProductLits;
use propagation_trail::{low, read};
use std::alloc::AllocError;

/// The literals that hold before a scan from a set, in place of those that stood in the list.
pub(crate) fn gather_wanted(
    wanted: &mut Vec<Lit>,
    lits: &ProductLits,
    set: &[bool],
) -> Result<(), AllocError> {
    wanted.clear();
    for lit in lits.outside.as_slice() {
        wanted.push(lit.negated())?;
    }
    for candidate in 0..lits.before.len() {
        if read(set, candidate, false) {
            wanted.push(lits.before[candidate])?;
        }
    }
    wanted.extend_from_slice(lits.environment.as_slice())
}

/// The same as facts of a search.
pub(crate) fn add_facts(
    cone: &mut ConeSearch,
    lits: &ProductLits,
    set: &[bool],
) -> Result<(), AllocError> {
    for lit in lits.outside.as_slice() {
        cone.add_fact(lit.negated())?;
    }
    for candidate in 0..lits.before.len() {
        if read(set, candidate, false) {
            cone.add_candidate(low(candidate), lits.before[candidate])?;
        }
    }
    for lit in lits.environment.as_slice() {
        cone.add_fact(*lit)?;
    }
    Ok(())
}
