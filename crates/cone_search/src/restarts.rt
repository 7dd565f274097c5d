// When a question begins anew.

/// How many conflicts come before the first restart.
const UNIT: u64 = 100;

/// The restarts of a question: each run has a hundred conflicts times the next number of the sequence of Luby, 1 1 2 1 1 2 4 1 1 2 ..
#[derive(Clone, Copy)]
pub(crate) struct Restarts {
    /// The place in the sequence, as Knuth counts.
    turn: u64,
    /// The number of the sequence.
    length: u64,
    /// The number of conflicts at which the run ends.
    end: u64,
}

impl Restarts {
    pub const FIRST: Restarts = Restarts {
        turn: 1,
        length: 1,
        end: UNIT,
    };

    /// Whether the run is over.
    pub fn is_over(self, conflicts: u64) -> bool {
        conflicts >= self.end
    }

    /// The next run.
    pub fn next(self, conflicts: u64) -> Restarts {
        let (turn, length) = if self.turn & self.turn.wrapping_neg() == self.length {
            (self.turn.wrapping_add(1), 1)
        } else {
            (self.turn, self.length.wrapping_mul(2))
        };
        Restarts {
            turn,
            length,
            end: conflicts.wrapping_add(length.wrapping_mul(UNIT)),
        }
    }
}
