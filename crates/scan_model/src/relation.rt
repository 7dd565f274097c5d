// A relation between two programs, and how a replay under it ends.
ghost use Rattle.std.specs.Prelude.{◌≡◌};
ghost use Rattle.scan_model.specs.Among.{among};

use plc_types::Range;
use program_tree::TypedExpr;

/// A clause that may hold after every scan, and its printed name.
#[derive(Drop)]
pub struct Candidate {
    pub name: String,
    pub clause: TypedExpr,
}

/// What a relation file says of two programs. A clause is an expression over OLD's cells and then NEW's. The INVARIANT and the RELATE
/// clauses stand among the candidates, and nowhere else.
#[derive(Drop)]
pub struct Relation {
    /// Scans to be searched from the start.
    pub depth: u64,
    /// Derivations for each query.
    pub conflicts: u64,
    pub inputs: Vec<InputLine>,
    /// The ENV clauses: what inputs may come.
    pub environment: Vec<TypedExpr>,
    /// Whether faults have to agree.
    pub equal_faults: bool,
    /// The candidates, in their order.
    pub candidates: Vec<Candidate>,
    /// How many INVARIANT clauses there are, which are asked to hold after every scan. They are the first candidates.
    pub invariants: usize,
    /// The number of the candidate, from 0, that is the first RELATE clause.
    pub first_relate: usize,
    /// How many RELATE clauses there are. The last is the one on FAULT where faults have to agree.
    pub relates: usize,
}

// So many candidates from a number on.
fn among(candidates: &[Candidate], first: usize, count: usize) -> &[Candidate]
    ensures { result.now ≡ among first count candidates.now }
{
    let behind = first.min(candidates.len());
    let rest = &candidates[behind..];
    &rest[..count.min(rest.len())]
}

impl Relation {
    /// The INVARIANT clauses.
    pub fn invariant_clauses(&self) -> &[Candidate]
        ensures { result.now ≡ among 0 self.now.invariants self.now.candidates.items }
    {
        among(&self.candidates, 0, self.invariants)
    }

    /// The RELATE clauses, and last the one on FAULT where faults have to agree.
    pub fn relate_clauses(&self) -> &[Candidate]
        ensures { result.now ≡ among self.now.first_relate self.now.relates self.now.candidates.items }
    {
        among(&self.candidates, self.first_relate, self.relates)
    }
}

/// One number of a row of inputs: its range, and the cells that it is put into, by their places: one of each
/// program, one of OLD, or one of NEW.
#[derive(Clone, Copy)]
pub enum InputLine {
    Both {
        range: Range,
        old: usize,
        new: usize,
    },
    Old {
        range: Range,
        place: usize,
    },
    New {
        range: Range,
        place: usize,
    },
}

/// How a replay ends: after all of so many rows, or at a row, counted from 1.
#[derive(Clone, Copy)]
pub enum Ending {
    Related(usize),
    Unrelated(usize),
    NotAllowed(usize),
}
