// The gates of a formula that says what a circuit does.

use crate::marks::Marks;
use clause_core::{Clause, Truth, clause_at};
use std::alloc::{AllocError, Global};
use watched_propagation::{Code, Propagator, low, read, write};

/// The most clauses that say what a gate is.
const MOST_CLAUSES: u32 = 4;

/// Where the clauses of each gate stand. The operands of a gate have lower numbers than the gate, so its clauses end with it; and
/// they stand one behind the other.
#[derive(Drop)]
pub(crate) struct Gates {
    /// For each variable the number of the first clause of two literals or more that ends with it.
    firsts: Vec<u32>,
    /// Whether all clauses that end with the same variable stand one behind the other.
    is_circuit: bool,
}

/// The literal that a clause of two literals or more ends with.
fn end_of(clause: &Clause) -> Code {
    let literals = clause.literals();
    if literals.len() < 2 {
        return Code::NONE;
    }
    match literals.last() {
        Some(literal) => Code::of(*literal),
        None => Code::NONE,
    }
}

impl Gates {
    pub fn new(alloc: Global) -> Gates {
        Gates {
            firsts: Vec::new(alloc),
            is_circuit: false,
        }
    }

    /// One more than the greatest variable of the formula.
    pub fn places(&self) -> usize {
        self.firsts.len()
    }

    /// Whether the formula is a circuit's. One of another form, as of random clauses, has no gates to speak of.
    pub fn is_circuit(&self) -> bool {
        self.is_circuit
    }

    /// Takes another formula. Its last clause asks for something, and is no gate's.
    pub fn renew(&mut self, places: usize, formula: &[Clause]) -> Result<(), AllocError> {
        self.firsts.clear();
        for _ in 0..places {
            self.firsts.push(0)?;
        }
        self.is_circuit = true;
        let mut before = 0usize;
        for (place, clause) in formula.iter().enumerate() {
            let variable = end_of(clause).variable();
            if variable != before && place + 1 < formula.len() {
                self.note(low(place + 1), variable);
            }
            before = variable;
        }
        Ok(())
    }

    /// Notes where the clauses begin that end with a variable.
    fn note(&mut self, number: u32, variable: usize) {
        if variable == 0 {
            return;
        }
        if read(self.firsts.as_slice(), variable, 0) == 0 {
            write(self.firsts.as_mut_slice(), variable, number);
        } else {
            self.is_circuit = false;
        }
    }

    /// The number of the first clause of a literal's gate; 0 where it is no gate.
    fn first(&self, code: Code) -> u32 {
        read(self.firsts.as_slice(), code.variable(), 0)
    }

    /// The number of the clause of three literals or more that ends with a literal; 0 where there is none or there are several. The
    /// only one says what follows from the literal's negative.
    pub fn only_end(&self, held: &[Clause], code: Code) -> u32 {
        let first = self.first(code);
        let mut only = 0u32;
        for turn in 0..MOST_CLAUSES {
            let number = first.wrapping_add(turn);
            let Some(clause) = clause_at(held, number) else {
                break;
            };
            if end_of(clause).number != code.number || clause.literals().len() < 3 {
                continue;
            }
            if only != 0 {
                return 0;
            }
            only = number;
        }
        only
    }

    /// Marks the open operands of a literal's gate.
    pub fn mark_operands(
        &self,
        propagator: &Propagator,
        held: &[Clause],
        gate: Code,
        marks: &mut Marks,
    ) -> Result<(), AllocError> {
        let first = self.first(gate);
        for turn in 0..MOST_CLAUSES {
            let Some(clause) = clause_at(held, first.wrapping_add(turn)) else {
                break;
            };
            if end_of(clause).variable() != gate.variable() {
                break;
            }
            for literal in clause.literals() {
                let code = Code::of(*literal);
                if propagator.value(code) == Truth::Open && !marks.has(code) {
                    marks.mark(code)?;
                }
            }
        }
        Ok(())
    }
}
