// What is decided first: that a literal of the formula's last clause is true, and what must be true for it.

use crate::gates::Gates;
use crate::marks::Marks;
use clause_core::{Clause, Truth, clause_at};
use std::alloc::{AllocError, Global};
use watched_propagation::{Code, Propagator, read};

/// How many gates below a goal are gone through for what it rests on.
const MOST_GATES: usize = 200;

/// The literals of the last clause of a circuit's formula, which are decided in turn where no decision stands. One that comes to a
/// conflict is false from then on, and what was derived on the way helps with the next.
///
/// Below a goal stand the decisions that lead to it. In a circuit the gate of a conjunction is false where an operand
/// is: so the goal that it is false has as its next goal that the operand of the lowest number is. An equality of
/// numbers that is to fail is so tried bit by bit, from the lowest.
#[derive(Drop)]
pub(crate) struct Goals {
    codes: Vec<Code>,
    /// The place of the goal that is decided next, where it is not false.
    place: usize,
    /// The goal that was decided last. A formula of as many variables begins with it, since those before it came to nothing.
    last: Code,
    /// The goal for which was gathered last what it rests on.
    gathered: Code,
    /// What was gathered, until it is counted.
    pub found: Marks,
    gates: Gates,
    /// How many of the first decisions are goals.
    depth: u32,
}

impl Goals {
    pub fn new(alloc: Global) -> Goals {
        Goals {
            codes: Vec::new(alloc),
            place: 0,
            last: Code::NONE,
            gathered: Code::NONE,
            found: Marks::none(alloc),
            gates: Gates::new(alloc),
            depth: 0,
        }
    }

    /// Takes another formula, all of whose variables are below this number.
    pub fn renew(&mut self, places: usize, formula: &[Clause]) -> Result<(), AllocError> {
        if places != self.gates.places() {
            self.last = Code::NONE;
        }
        self.gathered = Code::NONE;
        self.depth = 0;
        self.found.renew(places)?;
        self.gates.renew(places, formula)?;
        self.codes.clear();
        if let Some(clause) = formula.last()
            && self.gates.is_circuit()
        {
            for literal in clause.literals() {
                self.codes.push(Code::of(*literal))?;
            }
        }
        self.place = self.start();
        Ok(())
    }

    /// The formula has no solution: all its goals came to nothing, and the next formula begins with its first.
    pub fn end(&mut self) {
        self.last = Code::NONE;
    }

    /// The next literal to decide, where all decisions that stand are goals.
    pub fn choose(&mut self, propagator: &Propagator, held: &[Clause]) -> Option<Code> {
        let level = propagator.level();
        self.depth = self.depth.min(level);
        if self.depth < level {
            return None;
        }
        let goal = match level {
            0 => self.turn(propagator)?,
            _ => propagator.literal_at(propagator.start_above(level - 1)),
        };
        let chosen = self.open_below(propagator, held, goal)?;
        self.depth = self.depth.wrapping_add(1);
        Some(chosen)
    }

    /// The first goal that is not false, from the one that was decided last on. One that is false here stays so.
    fn turn(&mut self, propagator: &Propagator) -> Option<Code> {
        for _ in 0..self.codes.len() {
            let code = read(self.codes.as_slice(), self.place, Code::NONE);
            if propagator.value(code) != Truth::False {
                self.last = code;
                return Some(code);
            }
            self.place = self.place.wrapping_add(1);
            if self.place >= self.codes.len() {
                self.place = 0;
            }
        }
        None
    }

    /// The place of the goal that was decided last, or of the next behind it.
    fn start(&self) -> usize {
        for (place, code) in self.codes.iter().enumerate() {
            if code.number >= self.last.number {
                return place;
            }
        }
        0
    }

    /// The goal where it is open; where it is true, the first open one below it.
    fn open_below(&self, propagator: &Propagator, held: &[Clause], top: Code) -> Option<Code> {
        let mut goal = top;
        for _ in 0..held.len() {
            match propagator.value(goal) {
                Truth::Open => {
                    return Some(goal);
                }
                Truth::False => {
                    return None;
                }
                Truth::True => {}
            }
            goal = self.below(propagator, held, goal)?;
        }
        None
    }

    /// What must be true for a goal that is: of the clause that ends with its negative a true literal, or else the
    /// first open one.
    fn below(&self, propagator: &Propagator, held: &[Clause], goal: Code) -> Option<Code> {
        let clause = clause_at(held, self.gates.only_end(held, goal.negated()))?;
        let mut open = None;
        for literal in clause.literals() {
            let code = Code::of(*literal);
            match propagator.value(code) {
                Truth::True => {
                    return Some(code);
                }
                Truth::Open => {
                    open = open.or(Some(code));
                }
                Truth::False => {}
            }
        }
        open
    }

    /// Gathers the open variables that the present goal rests on, once a goal: those of the gates below it, the nearest first.
    pub fn gather(&mut self, propagator: &Propagator, held: &[Clause]) -> Result<(), AllocError> {
        if self.gathered.number == self.last.number {
            return Ok(());
        }
        self.gathered = self.last;
        self.found.mark(self.last)?;
        for place in 0..MOST_GATES {
            let Some(gate) = self.found.get(place) else {
                break;
            };
            let found = &mut self.found;
            self.gates.mark_operands(propagator, held, gate, found)?;
        }
        Ok(())
    }
}
