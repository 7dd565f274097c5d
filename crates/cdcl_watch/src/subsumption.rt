// Which derived clauses a new one is a part of: backward subsumption, as SatELite looks for it, by the list of its rarest literal and by signatures.

use cdcl_core::Covered;
use std::alloc::{AllocError, Global};
use std::mem;
use watched_propagation::{ClauseRef, Code, Propagator, low, read, write};

/// No clause.
const NONE: u32 = u32::MAX;

/// What is kept of a derived clause.
#[derive(Clone, Copy)]
struct Noted {
    /// Its place among all clauses.
    place: u32,
    /// The number of the one that is a part of it, where it is looked up no more.
    by: u32,
}

impl Noted {
    /// What is kept of no clause.
    const NOTHING: Noted = Noted { place: 0, by: 0 };
}

/// That a derived clause has a literal.
#[derive(Clone, Copy)]
struct Occurrence {
    /// A bit for each literal of the clause, of 64.
    signature: u64,
    noted: u32,
}

impl Occurrence {
    /// That of no clause.
    const NOTHING: Occurrence = Occurrence {
        signature: 0,
        noted: NONE,
    };
}

/// The derived clauses, by their literals.
#[derive(Drop)]
pub(crate) struct Subsumption {
    alloc: Global,
    noted: Vec<Noted>,
    /// By the number of the literal.
    lists: Vec<Vec<Occurrence>>,
    /// By the number of the literal: whether the new clause has it.
    is_new: Vec<bool>,
    /// Those of which another one is a part, but which gave a literal its value.
    waiting: Vec<u32>,
}

/// The bits that stand for some literals.
fn signature_of(codes: &[Code]) -> u64 {
    let mut bits = 0u64;
    for code in codes {
        bits |= 1u64 << (code.number.wrapping_mul(0x9E37_79B1) >> 26);
    }
    bits
}

/// Whether a clause gave a literal of it its value: a step may name it.
fn is_reason(propagator: &Propagator, clause: ClauseRef) -> bool {
    for number in propagator.codes(clause) {
        if propagator.cause(Code { number: *number }).reason == clause {
            return true;
        }
    }
    false
}

impl Subsumption {
    /// No clause is noted.
    pub fn new(alloc: Global) -> Subsumption {
        Subsumption {
            alloc,
            noted: Vec::new(alloc),
            lists: Vec::new(alloc),
            is_new: Vec::new(alloc),
            waiting: Vec::new(alloc),
        }
    }

    /// Makes room for the literals of the variables below a number, where there is none.
    fn make_room(&mut self, places: usize) -> Result<(), AllocError> {
        let literals = places.saturating_mul(2);
        for _ in self.lists.len()..literals {
            self.lists.push(Vec::new(self.alloc))?;
            self.is_new.push(false)?;
        }
        Ok(())
    }

    /// How many clauses have a literal, at most.
    fn count(&self, code: Code) -> usize {
        match self.lists.get(code.place()) {
            Some(list) => list.len(),
            None => 0,
        }
    }

    /// The literal that the fewest clauses have.
    fn rarest(&self, codes: &[Code]) -> Code {
        let mut rarest = Code::NONE;
        let mut fewest = usize::MAX;
        for code in codes {
            let count = self.count(*code);
            if count < fewest {
                rarest = *code;
                fewest = count;
            }
        }
        rarest
    }

    fn mark(&mut self, codes: &[Code], value: bool) {
        for code in codes {
            write(self.is_new.as_mut_slice(), code.place(), value);
        }
    }

    /// Whether a clause has all literals of the new one, which are so many.
    fn has_all(&self, codes: &[u32], count: usize) -> bool {
        let mut missing = count;
        for code in codes {
            if read(self.is_new.as_slice(), *code as usize, false) {
                missing = missing.wrapping_sub(1);
            }
        }
        missing == 0
    }

    fn noted(&self, number: u32) -> Noted {
        read(self.noted.as_slice(), number as usize, Noted::NOTHING)
    }

    /// Looks a clause up no more, which the new one covers.
    fn cover(&mut self, number: u32) {
        let by = low(self.noted.len());
        let place = self.noted(number).place;
        write(
            self.noted.as_mut_slice(),
            number as usize,
            Noted { place, by },
        );
    }

    /// Tests a clause that has the rarest literal; whether it is to be looked at again.
    fn test(
        &mut self,
        propagator: &Propagator,
        number: u32,
        count: usize,
        by: usize,
        found: &mut Vec<Covered>,
    ) -> Result<bool, AllocError> {
        let noted = self.noted(number);
        if noted.by != NONE {
            return Ok(false);
        }
        let clause = ClauseRef::at(noted.place);
        if !self.has_all(propagator.codes(clause), count) {
            return Ok(true);
        }
        self.cover(number);
        if is_reason(propagator, clause) {
            self.waiting.push(number)?;
        } else {
            let place = noted.place as usize;
            found.push(Covered { place, by })?;
        }
        Ok(false)
    }

    /// Goes through the clauses of a list. Those that are not to be looked at again go out of it.
    fn find_among(
        &mut self,
        propagator: &Propagator,
        list: &mut Vec<Occurrence>,
        learned: &[Code],
        by: usize,
        found: &mut Vec<Covered>,
    ) -> Result<(), AllocError> {
        let wanted = signature_of(learned);
        let mut kept = 0usize;
        for place in 0..list.len() {
            let occurrence = read(list.as_slice(), place, Occurrence::NOTHING);
            let stays = wanted & !occurrence.signature != 0
                || self.test(propagator, occurrence.noted, learned.len(), by, found)?;
            if stays {
                write(list.as_mut_slice(), kept, occurrence);
                kept = kept.wrapping_add(1);
            }
        }
        list.truncate(kept);
        Ok(())
    }

    /// Takes the list of a literal out, and leaves an empty one.
    fn take_list(&mut self, code: Code) -> Vec<Occurrence> {
        let empty = Vec::new(self.alloc);
        match self.lists.get_mut(code.place()) {
            Some(list) => mem::replace(list, empty),
            None => empty,
        }
    }

    fn put_list(&mut self, code: Code, filled: Vec<Occurrence>) {
        if let Some(list) = self.lists.get_mut(code.place()) {
            *list = filled;
        }
    }

    /// Notes a clause by its literals.
    fn note(&mut self, learned: &[Code], place: usize) -> Result<(), AllocError> {
        let occurrence = Occurrence {
            signature: signature_of(learned),
            noted: low(self.noted.len()),
        };
        self.noted.push(Noted {
            place: low(place),
            by: NONE,
        })?;
        for code in learned {
            if let Some(list) = self.lists.get_mut(code.place()) {
                list.push(occurrence)?;
            }
        }
        Ok(())
    }

    /// Adds to `found` the derived clauses that a new one is a part of, which will stand at the place `by`, but none that gave a literal
    /// its value; and notes the new one.
    pub fn take(
        &mut self,
        propagator: &Propagator,
        learned: &[Code],
        by: usize,
        found: &mut Vec<Covered>,
    ) -> Result<(), AllocError> {
        self.make_room(propagator.values().len())?;
        self.mark(learned, true);
        let rarest = self.rarest(learned);
        let mut list = self.take_list(rarest);
        self.find_among(propagator, &mut list, learned, by, found)?;
        self.put_list(rarest, list);
        self.mark(learned, false);
        self.note(learned, by)
    }

    /// The number of the clause that is held and is a part of a covered one.
    fn last_cover(&self, number: u32) -> u32 {
        let mut last = number;
        for _ in 0..self.noted.len() {
            let by = self.noted(last).by;
            if by == NONE {
                break;
            }
            last = by;
        }
        last
    }

    /// Adds to `found` the covered clauses that gave a literal its value and do so no more.
    pub fn retry(
        &mut self,
        propagator: &Propagator,
        found: &mut Vec<Covered>,
    ) -> Result<(), AllocError> {
        let mut kept = 0usize;
        for at in 0..self.waiting.len() {
            let number = read(self.waiting.as_slice(), at, NONE);
            let place = self.noted(number).place;
            if is_reason(propagator, ClauseRef::at(place)) {
                write(self.waiting.as_mut_slice(), kept, number);
                kept = kept.wrapping_add(1);
                continue;
            }
            let by = self.noted(self.last_cover(number)).place as usize;
            let place = place as usize;
            found.push(Covered { place, by })?;
        }
        self.waiting.truncate(kept);
        Ok(())
    }
}
