// The cells of a program, and the places of its inputs.
use crate::typed::{Cell, Part, Program};
use std::alloc::{AllocError, Global};

impl Program {
    ghost use Rattle.std.specs.Prelude.{◌≡◌, IfOk};
    ghost use Rattle.program_tree.specs.View.{cells_view, program_view};
    ghost use Rattle.program_tree.specs.Cells.{inputs_of};

    /// The cells, FAULT first and then the variables as declared.
    pub fn cells(&self) -> &[Cell]
        ensures { cells_view result.now ≡ (program_view self.now).cells }
    {
        &self.cells
    }

    /// The places of the VAR_INPUT cells, in declared order.
    pub fn inputs(&self, alloc: Global) -> Result<Vec<usize>, AllocError>
        ensures { IfOk result (λ places. places.items ≡ inputs_of (program_view self.now)) }
    {
        let mut places = Vec::new(alloc);
        for (place, cell) in self.cells.iter().enumerate() {
            if cell.part == Part::Input {
                places.push(place)?;
            }
        }
        Ok(places)
    }
}

impl Cell {
    ghost use Rattle.std.specs.Prelude.{◌≡◌, IfOk};
    ghost use Rattle.program_tree.specs.View.{cell_view};

    /// An equal cell.
    pub fn copy(&self, alloc: Global) -> Result<Cell, AllocError>
        ensures { IfOk result (λ copy. cell_view copy ≡ cell_view self.now) }
    {
        Ok(Cell {
            path: String::from_str(alloc, &self.path)?,
            part: self.part,
            kind: self.kind,
            range: self.range,
            is_subrange: self.is_subrange,
            initial: self.initial,
        })
    }
}
