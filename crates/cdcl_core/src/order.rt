// The order of decisions: the open variable that was met most in the conflicts of late, with its last value.

use crate::table::{read, write};
use clause_core::{Lit, Truth};
use std::alloc::{AllocError, Global};

/// How many conflicts there are between two halvings of the counts.
const CONFLICTS_A_HALVING: u32 = 64;

#[derive(Drop)]
pub(crate) struct Order {
    /// How often each variable was met in a conflict; conflicts long past count less.
    counts: Vec<u32>,
    /// The value that each variable had last; false at first.
    phases: Vec<bool>,
    conflicts: u32,
}

impl Order {
    pub fn new(alloc: Global, variables: u32) -> Result<Order, AllocError> {
        let places = variables as usize + 1;
        Ok(Order {
            counts: vec![in alloc; 0; places]?,
            phases: vec![in alloc; false; places]?,
            conflicts: 0,
        })
    }

    /// Counts a variable that a conflict met.
    pub fn raise(&mut self, variable: u32) {
        let count = read(self.counts.as_slice(), variable as usize, 0);
        write(
            self.counts.as_mut_slice(),
            variable as usize,
            count.saturating_add(1),
        );
    }

    /// Counts a conflict.
    pub fn end_conflict(&mut self) {
        self.conflicts = self.conflicts.wrapping_add(1);
        if self.conflicts % CONFLICTS_A_HALVING == 0 {
            for count in self.counts.iter_mut() {
                *count /= 2;
            }
        }
    }

    /// Keeps the value that a variable has.
    pub fn keep_phase(&mut self, literal: Lit) {
        write(
            self.phases.as_mut_slice(),
            literal.variable as usize,
            !literal.negative,
        );
    }

    /// The literal to decide, or None where no variable is open.
    pub fn choose(&self, values: &[Truth]) -> Option<Lit> {
        let mut best = None;
        let mut most = 0u32;
        let mut variable = 0u32;
        for truth in values {
            let count = read(self.counts.as_slice(), variable as usize, 0);
            if *truth == Truth::Open && variable > 0 && (best.is_none() || count > most) {
                best = Some(variable);
                most = count;
            }
            variable = variable.wrapping_add(1);
        }
        let variable = best?;
        let negative = !read(self.phases.as_slice(), variable as usize, false);
        Some(Lit { variable, negative })
    }
}
