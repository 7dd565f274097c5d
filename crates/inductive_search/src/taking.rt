// Rows that are kept from the runs behind a question.
use clause_core::Lit;
use lane_sim::{LANE_COUNT, is_empty, no_lane, one_lane};
use near_runs::{Lists, NearRuns};
use propagation_trail::{low, read, write};
use std::alloc::{AllocError, Global};
use std::simd::u64x4;

/// A row: its free bits, the first being that of variable 2; the variables of those that it needs as they are; and the candidates that
/// it drops.
#[derive(Drop)]
pub(crate) struct FoundRow {
    pub bits: Vec<bool>,
    pub needs: Vec<u32>,
    pub drops: Vec<u32>,
}

/// The candidates by the variable of their literal behind a scan.
#[derive(Drop)]
pub(crate) struct Behind {
    candidates: Lists,
}

impl Behind {
    pub fn new(alloc: Global, after: &[Lit], variables: usize) -> Result<Behind, AllocError> {
        let mut pairs = Vec::with_capacity(alloc, after.len())?;
        for candidate in 0..after.len() {
            pairs.push((after[candidate].variable, low(candidate)))?;
        }
        Ok(Behind {
            candidates: Lists::new(alloc, variables, pairs.as_slice())?,
        })
    }

    fn of(&self, variable: u32) -> &[u32] {
        self.candidates.of(variable as usize)
    }
}

/// Candidates that are still alive and fail in some lanes, and those lanes of each.
#[derive(Drop)]
struct Failing {
    candidates: Vec<u32>,
    lanes: Vec<u64x4>,
}

// The candidates that fail in good lanes. Only those whose literal differs from the base in some lane can.
fn gather_failing(
    alloc: Global,
    runs: &NearRuns,
    after: &[Lit],
    behind: &Behind,
    alive: &[bool],
) -> Result<Failing, AllocError> {
    let mut candidates = Vec::new(alloc);
    let mut lanes = Vec::new(alloc);
    let good = runs.good();
    for variable in runs.touched() {
        for candidate in behind.of(*variable) {
            let place = *candidate as usize;
            if place < after.len() && read(alive, place, false) {
                let fails = runs.word(after[place].negated()) & good;
                if !is_empty(fails) {
                    candidates.push(*candidate)?;
                    lanes.push(fails)?;
                }
            }
        }
    }
    Ok(Failing { candidates, lanes })
}

// Counts the lanes of a word, each for itself.
fn count_lanes(counts: &mut [u32], word: u64x4) {
    let numbers = word.to_array();
    for part in 0..4 {
        let mut bits = numbers[part];
        for _ in 0..64 {
            if bits == 0 {
                break;
            }
            let lane = (bits.trailing_zeros() as usize).wrapping_add(64 * part);
            let count = read(counts, lane, 0);
            write(counts, lane, count.wrapping_add(1));
            bits &= bits.wrapping_sub(1);
        }
    }
}

impl Failing {
    // The lane in which most of the candidates fail, the first such.
    fn best_lane(&self) -> usize {
        let mut counts = [0u32; LANE_COUNT];
        for word in self.lanes.as_slice() {
            count_lanes(counts.as_mut_slice(), *word);
        }
        let mut best = 0;
        let mut most = 0;
        for lane in 0..LANE_COUNT {
            if counts[lane] > most {
                most = counts[lane];
                best = lane;
            }
        }
        best
    }

    // Takes out the candidates that fail in a lane: they are alive no more.
    fn take(
        &mut self,
        alloc: Global,
        lane: u64x4,
        alive: &mut [bool],
    ) -> Result<Vec<u32>, AllocError> {
        let mut drops = Vec::new(alloc);
        let mut left = 0usize;
        for place in 0..self.candidates.len() {
            let candidate = read(self.candidates.as_slice(), place, 0);
            let lanes = read(self.lanes.as_slice(), place, no_lane());
            if is_empty(lanes & lane) {
                write(self.candidates.as_mut_slice(), left, candidate);
                write(self.lanes.as_mut_slice(), left, lanes);
                left = left.wrapping_add(1);
            } else {
                write(alive, candidate as usize, false);
                drops.push(candidate)?;
            }
        }
        self.candidates.truncate(left);
        self.lanes.truncate(left);
        Ok(drops)
    }
}

/// Adds the rows of lanes that meet all and drop candidates which are alive: the first lane, then the one that drops most of those that
/// are left, and so on. What they drop is alive no more.
pub(crate) fn take_rows(
    alloc: Global,
    runs: &NearRuns,
    after: &[Lit],
    behind: &Behind,
    needs: &[u32],
    alive: &mut [bool],
    rows: &mut Vec<FoundRow>,
) -> Result<(), AllocError> {
    let mut failing = gather_failing(alloc, runs, after, behind, alive)?;
    let mut lane = 0usize;
    // Each turn but the first drops a candidate, so no lane comes twice.
    for _ in 0..LANE_COUNT + 1 {
        if failing.candidates.is_empty() || lane >= LANE_COUNT {
            break;
        }
        let drops = failing.take(alloc, one_lane(lane), alive)?;
        if !drops.is_empty() {
            let bits = runs.row(alloc, lane)?;
            let needs = Vec::from_slice(alloc, needs)?;
            rows.push(FoundRow { bits, needs, drops })?;
        }
        lane = failing.best_lane();
    }
    Ok(())
}
