// The order of decisions: the open variable of the greatest activity, with the value that it had last.

use crate::activity_heap::ActivityHeap;
use crate::goals::Goals;
use clause_core::Clause;
use std::alloc::{AllocError, Global};
use watched_propagation::{Propagator, low, read, write};

/// As how many conflicts it counts for a variable that a new goal rests on it.
const GOAL_WEIGHT: f64 = 10.0;

/// The variables that may be decided by their activities, saved phases, and what is decided before all variables.
#[derive(Drop)]
pub(crate) struct Order {
    pub heap: ActivityHeap,
    /// The value that each variable had last; false at first.
    phases: Vec<bool>,
    pub goals: Goals,
}

impl Order {
    pub fn new(alloc: Global) -> Order {
        Order {
            heap: ActivityHeap::new(alloc),
            phases: Vec::new(alloc),
            goals: Goals::new(alloc),
        }
    }

    /// Makes ready for this many variables, all open: activities and phases stay.
    pub fn renew(&mut self, variables: u32) -> Result<(), AllocError> {
        let wanted = variables as usize + 1;
        self.heap.renew(variables)?;
        for _ in self.phases.len()..wanted {
            self.phases.push(false)?;
        }
        for variable in 0..variables {
            self.heap.insert(variable.wrapping_add(1))?;
        }
        Ok(())
    }

    /// Counts the variables that a new goal rests on: they come to a conflict soon, and no other does.
    pub fn raise_goal(
        &mut self,
        propagator: &Propagator,
        held: &[Clause],
    ) -> Result<(), AllocError> {
        self.goals.gather(propagator, held)?;
        for place in 0..self.goals.found.len() {
            let Some(code) = self.goals.found.get(place) else {
                break;
            };
            self.heap.raise_by(low(code.variable()), GOAL_WEIGHT);
        }
        self.goals.found.keep(0);
        Ok(())
    }

    #[inline(always)]
    pub fn keep_phase(&mut self, variable: usize, is_true: bool) {
        write(self.phases.as_mut_slice(), variable, is_true);
    }

    pub fn phase(&self, variable: u32) -> bool {
        read(self.phases.as_slice(), variable as usize, false)
    }
}
