// Marks on variables.

use std::alloc::{AllocError, Global};
use watched_propagation::{Code, read, write};

/// Variables that are marked, and the literals that marked them, in order.
#[derive(Drop)]
pub(crate) struct Marks {
    flags: Vec<bool>,
    codes: Vec<Code>,
}

impl Marks {
    /// Marks on no variables.
    pub fn none(alloc: Global) -> Marks {
        Marks {
            flags: Vec::new(alloc),
            codes: Vec::new(alloc),
        }
    }

    pub fn new(alloc: Global, variables: u32) -> Result<Marks, AllocError> {
        Ok(Marks {
            flags: vec![in alloc; false; variables as usize + 1]?,
            codes: Vec::new(alloc),
        })
    }

    /// Makes ready for the variables below a number, none of them marked.
    pub fn renew(&mut self, places: usize) -> Result<(), AllocError> {
        self.codes.clear();
        self.flags.clear();
        for _ in 0..places {
            self.flags.push(false)?;
        }
        Ok(())
    }

    /// Whether the literal's variable is marked.
    #[inline(always)]
    pub fn has(&self, code: Code) -> bool {
        read(self.flags.as_slice(), code.variable(), true)
    }

    /// Marks the literal's variable.
    #[inline(always)]
    pub fn mark(&mut self, code: Code) -> Result<(), AllocError> {
        write(self.flags.as_mut_slice(), code.variable(), true);
        self.codes.push(code)?;
        Ok(())
    }

    /// How many marks there are.
    pub fn len(&self) -> usize {
        self.codes.len()
    }

    /// The literal of a mark, in the order in which they were made.
    pub fn get(&self, place: usize) -> Option<Code> {
        self.codes.get(place).copied()
    }

    /// Takes back all marks but the first ones.
    pub fn keep(&mut self, count: usize) {
        for place in count..self.codes.len() {
            let code = read(self.codes.as_slice(), place, Code::NONE);
            write(self.flags.as_mut_slice(), code.variable(), false);
        }
        self.codes.truncate(count);
    }
}
