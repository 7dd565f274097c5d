// How much is tried.

// How many values of cells are looked at in all.
const MOST_VALUES: usize = 1_000_000;

// How many pairs are looked at, at least.
const LEAST_PAIRS: usize = 150;

// How many pairs are looked at where nothing else is asked for.
const MOST_PAIRS: usize = 12_000;

/// What is asked for: the seed from which rows are drawn, and how many pairs are looked at, at most.
#[derive(Clone, Copy)]
pub struct Effort {
    pub seed: u64,
    pub pairs: usize,
}

impl Effort {
    /// As many pairs as there are where nothing is asked for but a seed.
    pub fn of_seed(seed: u64) -> Effort {
        Effort {
            seed,
            pairs: MOST_PAIRS,
        }
    }
}

/// How many runs there are, how many pairs in all, and the seed from which rows are drawn.
#[derive(Clone, Copy)]
pub struct Plan {
    pub runs: usize,
    pub pairs: usize,
    pub seed: u64,
}

impl Plan {
    /// The plan for programs of so many cells: the more cells, the fewer pairs, and at most so many.
    pub fn of_cells(cells: usize, effort: Effort) -> Plan {
        let pairs = if cells == 0 {
            MOST_PAIRS
        } else {
            (MOST_VALUES / cells).max(LEAST_PAIRS).min(MOST_PAIRS)
        };
        Plan {
            runs: 300,
            pairs: pairs.min(effort.pairs),
            seed: effort.seed,
        }
    }

    /// How many scans a run has, by its number: some are long.
    pub fn scans(&self, run: usize) -> usize {
        if run % 4 == 0 { 400 } else { 40 }
    }
}
