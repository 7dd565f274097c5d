// The cones of gates: the variables that a question decides.

use clause_core::Gate;
use gates::Circuit;
use propagation_trail::{Code, read, write};
use std::alloc::{AllocError, Global};

/// The variables of the gates and free bits below those that were loaded.
#[derive(Drop)]
pub(crate) struct Cone {
    /// For each variable the number of the last cone that it was in.
    marks: Vec<u32>,
    /// The number of the present cone.
    stamp: u32,
    /// For each variable the number of the last walk that met it.
    met: Vec<u32>,
    /// The number of the present walk.
    walk: u32,
    /// The free bits of the cone that had no value when it came to them.
    pub bits: Vec<u32>,
    /// Variables to be walked through.
    pub stack: Vec<u32>,
}

impl Cone {
    /// No variable of so many.
    pub fn new(alloc: Global, variables: usize) -> Result<Cone, AllocError> {
        Ok(Cone {
            marks: vec![in alloc; 0u32; variables]?,
            stamp: 0,
            met: vec![in alloc; 0u32; variables]?,
            walk: 0,
            bits: Vec::new(alloc),
            stack: Vec::new(alloc),
        })
    }

    /// Whether the literal's variable is in the cone.
    #[inline(always)]
    pub fn has(&self, code: Code) -> bool {
        read(self.marks.as_slice(), code.variable(), 0) == self.stamp
    }

    /// Begins another cone, with no variable yet.
    pub fn begin(&mut self) {
        self.stamp = self.stamp.wrapping_add(1);
        self.bits.clear();
    }

    /// Begins a walk through the gates below a variable.
    pub fn begin_walk(&mut self, variable: u32) -> Result<(), AllocError> {
        self.walk = self.walk.wrapping_add(1);
        self.stack.clear();
        self.stack.push(variable)?;
        Ok(())
    }

    /// Whether the walk meets a variable for the first time.
    pub fn meet(&mut self, variable: u32) -> bool {
        let place = variable as usize;
        if read(self.met.as_slice(), place, self.walk) == self.walk {
            return false;
        }
        write(self.met.as_mut_slice(), place, self.walk);
        true
    }

    /// Puts a variable into the cone; whether it was not in it.
    pub fn mark(&mut self, variable: u32) -> bool {
        let place = variable as usize;
        if read(self.marks.as_slice(), place, self.stamp) == self.stamp {
            return false;
        }
        write(self.marks.as_mut_slice(), place, self.stamp);
        true
    }

    /// Notes a variable, where it is a free bit.
    pub fn note_bit(&mut self, circuit: &Circuit, variable: u32) -> Result<(), AllocError> {
        if variable < circuit.first() {
            self.bits.push(variable)?;
        }
        Ok(())
    }
}

/// The variables of a gate's operands, TRUE for those that it has not; of a free bit all are TRUE.
pub(crate) fn operands(circuit: &Circuit, variable: u32) -> [u32; 3] {
    let first = circuit.first();
    let place = variable.wrapping_sub(first) as usize;
    if variable < first || place >= circuit.count() {
        return [1, 1, 1];
    }
    match circuit.gate(place) {
        Gate::And(a, b) => [a.variable, b.variable, 1],
        Gate::Xor(a, b) => [a.variable, b.variable, 1],
        Gate::Mux(c, a, b) => [c.variable, a.variable, b.variable],
    }
}
