// The order in which candidates are asked: those of small cones first.
use clause_core::Lit;
use cone_search::ConeSearch;
use propagation_trail::{low, read};
use std::alloc::{AllocError, Global};

// How large the cone of each candidate of a set is, 0 for the others.
fn cone_sizes(
    alloc: Global,
    cone: &mut ConeSearch,
    after: &[Lit],
    set: &[bool],
) -> Result<Vec<usize>, AllocError> {
    let mut sizes = Vec::new(alloc);
    for candidate in 0..after.len() {
        if read(set, candidate, false) {
            cone.load_cone(after[candidate].variable)?;
            sizes.push(cone.cone_size())?;
        } else {
            sizes.push(0)?;
        }
    }
    Ok(sizes)
}

/// The candidates of a set by the sizes of their cones, and those of one size by their numbers.
pub(crate) fn by_cone(
    alloc: Global,
    cone: &mut ConeSearch,
    after: &[Lit],
    set: &[bool],
) -> Result<Vec<u32>, AllocError> {
    let sizes = cone_sizes(alloc, cone, after, set)?;
    let sizes = sizes.as_slice();
    let mut order = Vec::new(alloc);
    for candidate in 0..after.len() {
        if read(set, candidate, false) {
            order.push(low(candidate))?;
        }
    }
    order.sort_by_key(|candidate| read(sizes, *candidate as usize, 0))?;
    Ok(order)
}
