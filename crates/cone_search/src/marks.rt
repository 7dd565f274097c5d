// What is known of variables while a conflict is analyzed.

use propagation_trail::{read, write};
use std::alloc::{AllocError, Global};

#[derive(Clone, Copy)]
pub(crate) enum Mark {
    Unmet,
    /// The conflict rests on it.
    Met,
    /// It follows from variables that are met.
    Implied,
    /// It does not follow from them.
    Free,
}

#[derive(Drop)]
pub(crate) struct Marks {
    marks: Vec<Mark>,
    /// The variables that are marked.
    marked: Vec<u32>,
}

impl Marks {
    /// No mark on so many variables.
    pub fn new(alloc: Global, variables: usize) -> Result<Marks, AllocError> {
        Ok(Marks {
            marks: vec![in alloc; Mark::Unmet; variables]?,
            marked: Vec::new(alloc),
        })
    }

    #[inline(always)]
    pub fn get(&self, variable: u32) -> Mark {
        read(self.marks.as_slice(), variable as usize, Mark::Met)
    }

    #[inline(always)]
    pub fn is_unmet(&self, variable: u32) -> bool {
        match self.get(variable) {
            Mark::Unmet => true,
            _ => false,
        }
    }

    /// Marks a variable, where it has no mark yet.
    #[inline(always)]
    pub fn set(&mut self, variable: u32, mark: Mark) -> Result<(), AllocError> {
        if self.is_unmet(variable) {
            write(self.marks.as_mut_slice(), variable as usize, mark);
            self.marked.push(variable)?;
        }
        Ok(())
    }

    /// Takes all marks away.
    pub fn clear(&mut self) {
        for variable in self.marked.iter() {
            write(self.marks.as_mut_slice(), *variable as usize, Mark::Unmet);
        }
        self.marked.clear();
    }
}
