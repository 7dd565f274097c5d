// Where runs reached values that cells had not had before, so that others go on from there.
use crate::random::Random;
use plc_types::Value;
use seen_values::{Classes, mixed, mixed_value};
use std::alloc::{AllocError, Global};

// How many values of a cell are of interest.
const MOST_VALUES: usize = 200;

// How many places are kept, and how many of the last ones come more often.
const MOST_PLACES: usize = 4_096;

const LAST_PLACES: u64 = 8;

// The longest run that is repeated.
const MOST_SCANS: usize = 1_500;

/// The values that were reached, how many each cell had, and the places where one was new: the number of a run, and how many of its rows
/// lead there.
#[derive(Drop)]
pub struct Reached {
    values: Classes,
    counts: Vec<usize>,
    places: Vec<(usize, usize)>,
    run: usize,
}

impl Reached {
    pub fn new(alloc: Global) -> Reached {
        Reached {
            values: Classes::new(alloc),
            counts: Vec::new(alloc),
            places: Vec::new(alloc),
            run: 0,
        }
    }

    /// What is noted from now on is of this run.
    pub fn begin(&mut self, run: usize) {
        self.run = run;
    }

    /// Notes the values of the cells on a pair to which so many rows of the run lead.
    pub fn note(&mut self, row: &[Value], scans: usize) -> Result<(), AllocError> {
        let mut is_new = false;
        for (cell, value) in row.iter().enumerate() {
            let key = mixed_value(mixed(1, cell as u64), *value);
            if cell >= self.counts.len() {
                self.counts.push(0)?;
            }
            if cell < self.counts.len()
                && self.counts[cell] < MOST_VALUES
                && self.values.find(key).is_none()
            {
                self.counts[cell] = self.counts[cell].wrapping_add(1);
                self.values.add(key, cell)?;
                is_new = true;
            }
        }
        if is_new && scans > 0 && scans <= MOST_SCANS && self.places.len() < MOST_PLACES {
            self.places.push((self.run, scans))?;
        }
        Ok(())
    }

    /// A place from which a run goes on; each second time the start, of which no rows lead anywhere.
    pub fn choose(&self, random: &mut Random) -> (usize, usize) {
        let count = self.places.len() as u64;
        let back = match random.below(4) {
            0 => random.below(count),
            1 => random.below(count.min(LAST_PLACES)),
            _ => return (0, 0),
        };
        let place = self
            .places
            .len()
            .wrapping_sub(1)
            .wrapping_sub(back as usize);
        match self.places.get(place) {
            Some(found) => *found,
            None => (0, 0),
        }
    }
}
