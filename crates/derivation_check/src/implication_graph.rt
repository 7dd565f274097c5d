// Which literal of a learned clause it asserted, as far as its hints tell. Nothing is owed: any answer is right.
//
// The hints of a clause are an implication graph, from its literals to a conflict. Where it was learned at the first
// unique implication point, all that followed from the last decision followed from its asserting literal. So that
// literal leads to each hint from the first on that it leads to. And it stands in two of them: in one alone, the
// literal that this hint made true would be such a point too, and a later one.

use clause_core::{Cnf, Lit, clause_at};
use std::alloc::{AllocError, Global};
use watched_propagation::{read, write};

/// The bit of each variable that has a value.
const VALUED: u64 = 1;

/// The bit of the variables of the clause itself.
const OWN: u64 = 0x8000_0000_0000_0000;

/// How many literals have a bit of their own.
const MOST_NAMED: usize = 62;

/// The bit of the literal that was named at that turn, from 1.
fn bit_of(turn: usize) -> u64 {
    1 << (turn % 64)
}

/// The first variable that has one of the bits.
fn first_of(named: &[u32], bits: u64) -> u32 {
    for (index, variable) in named.iter().enumerate() {
        if bits & bit_of(index.wrapping_add(1)) != 0 {
            return *variable;
        }
    }
    0
}

/// The place of a variable in a clause; the last place where it has none.
fn place_of(literals: &[Lit], variable: u32) -> usize {
    for (place, literal) in literals.iter().enumerate() {
        if literal.variable == variable {
            return place;
        }
    }
    literals.len().saturating_sub(1)
}

/// What the hints so far say of the literals of the clause, each by its bit.
#[derive(Clone, Copy)]
struct Tally {
    /// It leads to a hint.
    met: u64,
    /// It leads to each hint from the first on.
    leading: u64,
    /// It stands in a hint.
    once: u64,
    /// It stands in two hints.
    twice: u64,
}

impl Tally {
    const NONE: Tally = Tally {
        met: 0,
        leading: 0,
        once: 0,
        twice: 0,
    };

    /// Takes in a hint, to which some literals lead, and in which some of them stand.
    fn note(&mut self, sources: u64, own: u64) {
        self.leading = sources & (self.leading | !self.met);
        self.met |= sources;
        self.twice |= self.once & own;
        self.once |= own;
    }
}

/// No variable of these has a value.
fn take_back(sources: &mut [u64], variables: &[u32]) {
    for variable in variables {
        write(sources, *variable as usize, 0);
    }
}

/// The implication graph of the hints of a clause.
#[derive(Drop)]
pub(crate) struct ImplicationGraph {
    /// For each variable that has a value, the bits of the literals that lead to it.
    sources: Vec<u64>,
    /// The variables that have one.
    valued: Vec<u32>,
    /// The clause's own variables, in the order in which hints named them.
    named: Vec<u32>,
}

impl ImplicationGraph {
    /// The graph of no clause.
    pub fn new(alloc: Global) -> ImplicationGraph {
        ImplicationGraph {
            sources: Vec::new(alloc),
            valued: Vec::new(alloc),
            named: Vec::new(alloc),
        }
    }

    /// Gives a variable a value.
    fn set(&mut self, variable: u32, sources: u64) -> Result<(), AllocError> {
        self.valued.push(variable)?;
        write(
            self.sources.as_mut_slice(),
            variable as usize,
            sources | VALUED,
        );
        Ok(())
    }

    /// Gives the variables of a clause values that are its own.
    fn begin(&mut self, variables: u32, literals: &[Lit]) -> Result<(), AllocError> {
        let places = variables as usize + 1;
        if self.sources.len() < places {
            self.sources.resize(places, 0)?;
        }
        for literal in literals {
            self.set(literal.variable, OWN)?;
        }
        Ok(())
    }

    /// The bits of a variable; one of the clause has a bit of its own from the first hint on that names it.
    fn bits(&mut self, variable: u32) -> Result<u64, AllocError> {
        let bits = read(self.sources.as_slice(), variable as usize, VALUED);
        if bits != OWN | VALUED || self.named.len() >= MOST_NAMED {
            return Ok(bits);
        }
        self.named.push(variable)?;
        let bits = bits | bit_of(self.named.len());
        write(self.sources.as_mut_slice(), variable as usize, bits);
        Ok(bits)
    }

    /// Follows a hint, its last literal first: it gives the only one of its variables that has no value one. The answer
    /// is whether there is such a variable.
    fn follow(&mut self, tally: &mut Tally, literals: &[Lit]) -> Result<bool, AllocError> {
        let mut sources = 0u64;
        let mut own = 0u64;
        let mut open = 0u32;
        let mut count = 0u32;
        for literal in literals.iter().rev() {
            let bits = self.bits(literal.variable)?;
            sources |= bits;
            if bits & OWN != 0 {
                own |= bits;
            }
            if bits == 0 {
                open = literal.variable;
                count = count.wrapping_add(1);
            }
        }
        tally.note(sources, own);
        if count != 1 {
            return Ok(false);
        }
        self.set(open, sources & !OWN)?;
        Ok(true)
    }

    /// Follows the hints of a clause, up to the first that gives no variable a value.
    fn follow_all(
        &mut self,
        cnf: &Cnf,
        literals: &[Lit],
        hints: &[u32],
    ) -> Result<Tally, AllocError> {
        self.begin(cnf.variables(), literals)?;
        let held = cnf.clauses();
        let mut tally = Tally::NONE;
        for number in hints {
            let Some(clause) = clause_at(held, *number) else {
                break;
            };
            if !self.follow(&mut tally, clause.literals())? {
                break;
            }
        }
        Ok(tally)
    }

    /// The place of the literal that a clause asserted, as far as the hints tell; else the last place. Where several
    /// are left it is the one that was named first, and of those that one hint named first the last.
    pub fn asserting_place(&mut self, cnf: &Cnf, literals: &[Lit], hints: &[u32]) -> usize {
        let followed = self.follow_all(cnf, literals, hints);
        take_back(self.sources.as_mut_slice(), self.valued.as_slice());
        self.valued.clear();
        let bits = match followed {
            Ok(tally) => tally.leading & tally.twice,
            Err(_) => 0,
        };
        let variable = first_of(self.named.as_slice(), bits);
        self.named.clear();
        place_of(literals, variable)
    }
}
