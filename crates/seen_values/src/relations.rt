// Relations among columns: where one column is a sum of multiples of others and a constant.
use crate::basis::{Basis, at};
use crate::field::{nearest, product, residue};
use crate::seen::Seen;
use plc_types::Value;
use std::alloc::{AllocError, Global};

// How many pairs are looked at, evenly spaced.
const MOST_ROWS: usize = 1_500;

// The largest coefficient.
const MOST_TIMES: Value = 4;

// The multiples of a relation that are tried: up to the largest coefficient.
static MULTIPLES: [Value; 4] = [1, 2, 3, 4];

// How many cells a relation has at most.
const MOST_CELLS: usize = 6;

/// That the sum of multiples of cells is a constant: each factor, and the number of its cell.
#[derive(Drop)]
pub struct Affine {
    pub terms: Vec<(Value, usize)>,
    pub constant: Value,
}

// 1, and then the values of the cells on a pair.
fn residues(
    alloc: Global,
    seen: &Seen,
    row: usize,
    cells: &[usize],
) -> Result<Vec<u64>, AllocError> {
    let mut residues = Vec::new(alloc);
    residues.push(1)?;
    for cell in cells {
        residues.push(residue(seen.value(row, *cell)))?;
    }
    Ok(residues)
}

fn basis_of(alloc: Global, seen: &Seen, cells: &[usize]) -> Result<Basis, AllocError> {
    let mut basis = Basis::new(alloc);
    let step = (seen.rows() / MOST_ROWS).saturating_add(1);
    let mut row = 0usize;
    for _ in 0..MOST_ROWS {
        if row >= seen.rows() {
            break;
        }
        basis.add(residues(alloc, seen, row, cells)?)?;
        row = row.saturating_add(step);
    }
    Ok(basis)
}

// The relation that a place without a pivot has with the pivots, times a small number; none where a factor is not small.
fn relation_at(
    alloc: Global,
    basis: &Basis,
    cells: &[usize],
    place: usize,
    times: Value,
) -> Result<Option<Affine>, AllocError> {
    let mut terms = Vec::new(alloc);
    let mut constant: Value = 0;
    for pivoted in basis.rows() {
        let factor = nearest(product(at(pivoted.row.as_slice(), place), residue(times)));
        if pivoted.pivot == 0 {
            constant = factor;
            continue;
        }
        if factor == 0 {
            continue;
        }
        if factor > MOST_TIMES || factor < -MOST_TIMES || terms.len() >= MOST_CELLS {
            return Ok(None);
        }
        if let Some(cell) = cells.get(pivoted.pivot.wrapping_sub(1)) {
            terms.push((factor.wrapping_neg(), *cell))?;
        }
    }
    if let Some(cell) = cells.get(place.wrapping_sub(1)) {
        terms.push((times, *cell))?;
    }
    if terms.len() > MOST_CELLS {
        return Ok(None);
    }
    Ok(Some(Affine { terms, constant }))
}

// Whether a relation holds on all pairs, also on those that were not looked at.
fn holds_throughout(seen: &Seen, affine: &Affine) -> bool {
    for row in 0..seen.rows() {
        let mut sum: Value = 0;
        for (factor, cell) in affine.terms.iter() {
            sum = sum.wrapping_add(factor.wrapping_mul(seen.value(row, *cell)));
        }
        if sum != affine.constant {
            return false;
        }
    }
    true
}

// The same, times the least number for which it holds on all pairs: the one that makes all factors whole.
fn small_relation_at(
    alloc: Global,
    seen: &Seen,
    basis: &Basis,
    cells: &[usize],
    place: usize,
) -> Result<Option<Affine>, AllocError> {
    for times in MULTIPLES.iter() {
        if let Some(affine) = relation_at(alloc, basis, cells, place, *times)?
            && affine.terms.len() > 1
            && holds_throughout(seen, &affine)
        {
            return Ok(Some(affine));
        }
    }
    Ok(None)
}

/// Relations that held on all pairs, of two cells and more, and so that no cell that is not the last of its relation is so of
/// another: none follows from the others.
pub fn affine_relations(
    alloc: Global,
    seen: &Seen,
    cells: &[usize],
) -> Result<Vec<Affine>, AllocError> {
    let basis = basis_of(alloc, seen, cells)?;
    let mut found = Vec::new(alloc);
    for before in 0..cells.len() {
        let place = before + 1;
        if basis.has_pivot(place) {
            continue;
        }
        if let Some(affine) = small_relation_at(alloc, seen, &basis, cells, place)? {
            found.push(affine)?;
        }
    }
    Ok(found)
}
