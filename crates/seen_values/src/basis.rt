// Rows of residues by their pivots, each with 1 at its pivot, and 0 at the pivots of the others.
use crate::field::{difference, inverse, product};
use std::alloc::{AllocError, Global};

/// A row, and the place of its pivot.
#[derive(Drop)]
pub struct Pivoted {
    pub pivot: usize,
    pub row: Vec<u64>,
}

/// Rows that span those that were added.
#[derive(Drop)]
pub struct Basis {
    rows: Vec<Pivoted>,
}

/// The residue at a place, or 0 past the end.
pub fn at(row: &[u64], place: usize) -> u64 {
    if place < row.len() { row[place] } else { 0 }
}

// Takes a multiple of one row from another, so that the other has 0 at the pivot.
fn clear(row: &mut [u64], pivoted: &[u64], pivot: usize) {
    let factor = at(row, pivot);
    if factor == 0 {
        return;
    }
    for place in 0..row.len() {
        row[place] = difference(row[place], product(factor, at(pivoted, place)));
    }
}

// The first place that is not 0.
fn leading(row: &[u64]) -> Option<usize> {
    row.iter().position(|residue| *residue != 0)
}

fn scale(row: &mut [u64], factor: u64) {
    for place in 0..row.len() {
        row[place] = product(row[place], factor);
    }
}

impl Basis {
    pub fn new(alloc: Global) -> Basis {
        Basis {
            rows: Vec::new(alloc),
        }
    }

    pub fn rows(&self) -> &[Pivoted] {
        self.rows.as_slice()
    }

    /// Adds a row, unless the others span it.
    pub fn add(&mut self, row: Vec<u64>) -> Result<(), AllocError> {
        let mut row = row;
        for other in &self.rows {
            clear(row.as_mut_slice(), other.row.as_slice(), other.pivot);
        }
        let Some(pivot) = leading(row.as_slice()) else {
            return Ok(());
        };
        let factor = inverse(at(row.as_slice(), pivot));
        scale(row.as_mut_slice(), factor);
        for other in self.rows.iter_mut() {
            clear(other.row.as_mut_slice(), row.as_slice(), pivot);
        }
        self.rows.push(Pivoted { pivot, row })?;
        Ok(())
    }

    /// Whether a place is the pivot of a row.
    pub fn has_pivot(&self, place: usize) -> bool {
        self.rows.iter().any(|pivoted| pivoted.pivot == place)
    }
}
