// Rows of a pass, joined into one where they do not disagree.
use crate::taking::FoundRow;
use propagation_trail::{read, write};
use std::alloc::{AllocError, Global};

/// How many joined rows are run.
const MOST: usize = 256;

/// The bits of a joined row, which of them some row needs or changes, and how many rows it joins.
#[derive(Drop)]
struct JoinedRow {
    bits: Vec<bool>,
    taken: Vec<bool>,
    count: u32,
}

// The place of a free bit.
fn place_of(variable: u32) -> usize {
    (variable as usize).wrapping_sub(2)
}

impl JoinedRow {
    // The start, which joins no row.
    fn new(alloc: Global, start: &[bool]) -> Result<JoinedRow, AllocError> {
        let mut bits = Vec::new(alloc);
        bits.extend_from_slice(start)?;
        Ok(JoinedRow {
            bits,
            taken: vec![in alloc; false; start.len()]?,
            count: 0,
        })
    }

    // Whether no bit that a row needs is taken with the other value.
    fn fits(&self, row: &FoundRow) -> bool {
        for variable in row.needs.as_slice() {
            let place = place_of(*variable);
            let bit = read(self.bits.as_slice(), place, false);
            if read(self.taken.as_slice(), place, false)
                && bit != read(row.bits.as_slice(), place, false)
            {
                return false;
            }
        }
        true
    }

    // Takes a bit from a row.
    fn take(&mut self, row: &FoundRow, place: usize) {
        let bit = read(row.bits.as_slice(), place, false);
        write(self.bits.as_mut_slice(), place, bit);
        write(self.taken.as_mut_slice(), place, true);
    }

    // Takes the bits that a row needs, and those that differ from the start.
    fn join(&mut self, row: &FoundRow, start: &[bool]) {
        for place in 0..start.len() {
            if read(row.bits.as_slice(), place, false) != start[place] {
                self.take(row, place);
            }
        }
        for variable in row.needs.as_slice() {
            self.take(row, place_of(*variable));
        }
        self.count = self.count.saturating_add(1);
    }
}

// Joins a row to the first joined one that it fits, and says whether there is one.
fn join_first(joined: &mut [JoinedRow], row: &FoundRow, start: &[bool]) -> bool {
    for place in 0..joined.len() {
        if joined[place].fits(row) {
            joined[place].join(row, start);
            return true;
        }
    }
    false
}

// All rows, each joined to the first of which it fits.
fn join_all(
    alloc: Global,
    rows: &[FoundRow],
    start: &[bool],
) -> Result<Vec<JoinedRow>, AllocError> {
    let mut joined = Vec::new(alloc);
    for row in rows {
        if !join_first(joined.as_mut_slice(), row, start) {
            let mut first = JoinedRow::new(alloc, start)?;
            first.join(row, start);
            joined.push(first)?;
        }
    }
    Ok(joined)
}

/// The free bits of what comes of rows that are joined, where it is more than one of them.
pub(crate) fn joined_rows(
    alloc: Global,
    rows: &[FoundRow],
    start: &[bool],
) -> Result<Vec<Vec<bool>>, AllocError> {
    let joined = join_all(alloc, rows, start)?;
    let mut kept = Vec::new(alloc);
    for row in joined {
        let JoinedRow {
            bits,
            taken: _,
            count,
        } = row;
        if count > 1 && kept.len() < MOST {
            kept.push(bits)?;
        }
    }
    Ok(kept)
}
