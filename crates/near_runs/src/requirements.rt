// Which literals a run has to meet, and which bits are to be equal for it.
use clause_core::{Gate, Lit};
use gates::Circuit;
use propagation_trail::{read, write};
use std::alloc::{AllocError, Global};

/// Whether a variable has to have a value.
#[derive(Clone, Copy)]
pub(crate) enum Required {
    Any,
    True,
    False,
}

/// How a free bit may be changed.
#[derive(Clone, Copy)]
pub(crate) enum Tie {
    /// By itself.
    Loose,
    /// Not at all.
    Fixed,
    /// Together with a variable, which is to be equal to it.
    Mate(u32),
}

/// What is asked of the variables, by their numbers.
#[derive(Drop)]
pub(crate) struct Requirements {
    required: Vec<Required>,
    ties: Vec<Tie>,
    // the gates that were looked into
    seen: Vec<bool>,
    // literals that are asked for and were not yet looked into
    open: Vec<Lit>,
}

impl Requirements {
    /// Nothing is asked of so many variables.
    pub fn new(alloc: Global, variables: usize) -> Result<Requirements, AllocError> {
        Ok(Requirements {
            required: vec![in alloc; Required::Any; variables]?,
            ties: vec![in alloc; Tie::Loose; variables]?,
            seen: vec![in alloc; false; variables]?,
            open: Vec::new(alloc),
        })
    }

    /// What is asked of a variable: the literal that has to be met, if there is one.
    #[inline(always)]
    pub fn wanted(&self, variable: u32) -> Option<Lit> {
        match read(self.required.as_slice(), variable as usize, Required::Any) {
            Required::Any => None,
            Required::True => Some(Lit {
                variable,
                negative: false,
            }),
            Required::False => Some(Lit {
                variable,
                negative: true,
            }),
        }
    }

    /// How a free bit may be changed.
    #[inline(always)]
    pub fn tie(&self, variable: u32) -> Tie {
        read(self.ties.as_slice(), variable as usize, Tie::Loose)
    }

    /// Asks for these literals, and for nothing else.
    pub fn settle(&mut self, circuit: &Circuit, wanted: &[Lit]) -> Result<(), AllocError> {
        self.required.as_mut_slice().fill(Required::Any);
        self.ties.as_mut_slice().fill(Tie::Loose);
        self.seen.as_mut_slice().fill(false);
        self.open.clear();
        for lit in wanted {
            let required = if lit.negative {
                Required::False
            } else {
                Required::True
            };
            write(
                self.required.as_mut_slice(),
                lit.variable as usize,
                required,
            );
            self.open.push(*lit)?;
            self.look_into(circuit)?;
        }
        Ok(())
    }

    // Looks into the literals that are open, and into those that they ask for.
    fn look_into(&mut self, circuit: &Circuit) -> Result<(), AllocError> {
        for _ in 0..u64::MAX {
            let Some(lit) = self.open.pop() else {
                return Ok(());
            };
            self.look_at(circuit, lit)?;
        }
        Ok(())
    }

    // What a literal asks for: a free bit its own value, a gate what it is made of.
    fn look_at(&mut self, circuit: &Circuit, lit: Lit) -> Result<(), AllocError> {
        let first = circuit.first();
        if lit.variable < first {
            self.fix(lit.variable);
            return Ok(());
        }
        let place = (lit.variable - first) as usize;
        if place >= circuit.count() {
            return Ok(());
        }
        match circuit.gate(place) {
            Gate::And(a, b) => {
                if !lit.negative && self.is_new(lit.variable) {
                    self.open.push(b)?;
                    self.open.push(a)?;
                }
            }
            Gate::Xor(a, b) => {
                let is_equal = lit.negative ^ a.negative ^ b.negative;
                if is_equal && a.variable < first && b.variable < first {
                    self.pair(a.variable, b.variable);
                }
            }
            Gate::Mux(_, _, _) => {}
        }
        Ok(())
    }

    // Whether a gate is looked into for the first time.
    fn is_new(&mut self, variable: u32) -> bool {
        let is_new = !read(self.seen.as_slice(), variable as usize, true);
        write(self.seen.as_mut_slice(), variable as usize, true);
        is_new
    }

    // A free bit is not to be changed, nor the one that is to be equal to it.
    fn fix(&mut self, variable: u32) {
        if let Tie::Mate(mate) = self.tie(variable) {
            write(self.ties.as_mut_slice(), mate as usize, Tie::Fixed);
        }
        write(self.ties.as_mut_slice(), variable as usize, Tie::Fixed);
    }

    // Two free bits are to be equal. One that is to be equal to another already stays so.
    fn pair(&mut self, a: u32, b: u32) {
        match (self.tie(a), self.tie(b)) {
            (Tie::Loose, Tie::Loose) => {
                write(self.ties.as_mut_slice(), a as usize, Tie::Mate(b));
                write(self.ties.as_mut_slice(), b as usize, Tie::Mate(a));
            }
            (Tie::Fixed, Tie::Loose) => self.fix(b),
            (Tie::Loose, Tie::Fixed) => self.fix(a),
            _ => {}
        }
    }
}
