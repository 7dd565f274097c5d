// The cone of a question is loaded and widened.

use crate::cones::operands;
use crate::search::ConeSearch;
use crate::units::positive;
use std::alloc::AllocError;

impl<'p> ConeSearch<'p> {
    /// Takes the cone below a variable, down to those whose values are known: what is asked next decides in it alone.
    pub fn load_cone(&mut self, variable: u32) -> Result<(), AllocError> {
        let circuit = self.circuit;
        let cone = &mut self.propagator.cone;
        cone.begin();
        cone.mark(variable);
        cone.begin_walk(variable)?;
        self.heap.clear();
        for _ in 0..u64::MAX {
            let Some(top) = cone.stack.pop() else {
                break;
            };
            let is_open = self.propagator.trail.is_open(positive(top));
            if top < 2 || top != variable && !is_open {
                continue;
            }
            self.heap.insert(top)?;
            cone.note_bit(circuit, top)?;
            for operand in operands(circuit, top) {
                if operand > 1 && cone.mark(operand) {
                    cone.stack.push(operand)?;
                }
            }
        }
        Ok(())
    }

    /// How many variables whose values are open the cone has.
    pub fn cone_size(&self) -> usize {
        self.heap.len()
    }

    /// Adds the whole cone below a variable, also below those whose values are known, and says whether anything of it was new.
    pub fn widen(&mut self, variable: u32) -> Result<bool, AllocError> {
        let circuit = self.circuit;
        let cone = &mut self.propagator.cone;
        let mut has_more = false;
        cone.begin_walk(variable)?;
        for _ in 0..u64::MAX {
            let Some(top) = cone.stack.pop() else {
                break;
            };
            if !cone.meet(top) {
                continue;
            }
            if cone.mark(top) && self.propagator.trail.is_open(positive(top)) {
                has_more = true;
                self.heap.insert(top)?;
                cone.note_bit(circuit, top)?;
            }
            for operand in operands(circuit, top) {
                if operand > 1 {
                    cone.stack.push(operand)?;
                }
            }
        }
        Ok(has_more)
    }
}
