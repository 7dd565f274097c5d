// Rows that are proposed one by one.
use crate::taking::FoundRow;
use queries::CandidateSet;
use std::alloc::{AllocError, Global};

/// Rows in the order in which they are proposed.
#[derive(Drop)]
pub(crate) struct RowQueue {
    rows: Vec<FoundRow>,
    // the place of the row that was proposed last
    current: usize,
    // the place behind it
    next: usize,
}

// Whether one of the candidates that a row drops is still in a set.
fn may_drop(row: &FoundRow, set: &CandidateSet) -> bool {
    for candidate in row.drops.as_slice() {
        if set.has(*candidate as usize) {
            return true;
        }
    }
    false
}

impl RowQueue {
    /// No row.
    pub fn new(alloc: Global) -> RowQueue {
        RowQueue {
            rows: Vec::new(alloc),
            current: 0,
            next: 0,
        }
    }

    /// Takes the rows out.
    pub fn clear(&mut self) {
        self.rows.clear();
        self.current = 0;
        self.next = 0;
    }

    /// Adds a row behind the others.
    pub fn push(&mut self, row: FoundRow) -> Result<(), AllocError> {
        self.rows.push(row)?;
        Ok(())
    }

    /// Moves rows behind the others.
    pub fn append(&mut self, rows: &mut Vec<FoundRow>) -> Result<(), AllocError> {
        self.rows.append(rows)
    }

    /// Goes on to the next row that may drop a candidate of a set, and says whether there is one.
    pub fn go_on(&mut self, set: &CandidateSet) -> bool {
        for place in self.next..self.rows.len() {
            if may_drop(&self.rows[place], set) {
                self.current = place;
                self.next = place.wrapping_add(1);
                return true;
            }
        }
        self.next = self.rows.len();
        false
    }

    /// The free bits of the row that is proposed.
    pub fn bits(&self) -> &[bool] {
        match self.rows.get(self.current) {
            Some(row) => row.bits.as_slice(),
            None => &[],
        }
    }
}
