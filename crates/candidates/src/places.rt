// The programs of a pair, with the names of their variables that are no cells.
ghost use Rattle.std.specs.Prelude.{◌≡◌, IfOk};
ghost use Rattle.program_tree.specs.View.{texts_view, program_view};
ghost use Rattle.candidates.specs.ByPath.{is_among};
ghost use Rattle.candidates.specs.Places.{HasNames};

use indexmap::IndexSet;
use program_tree::Program;
use std::alloc::{AllocError, Global};

// Names.
type Names<'p> = IndexSet<&'p str>;

// A list of names as a set.
fn names<'p>(alloc: Global, list: &'p [String]) -> Result<Names<'p>, AllocError>
    ensures { IfOk result (λ set. HasNames set (texts_view list.now)) }
{
    let mut set = IndexSet::new(alloc);
    for index in (0..list.len()).rev() {
        set.insert(list[index].as_str())?;
    }
    Ok(set)
}

/// A program of a pair, and the names of its variables that are no cells.
#[derive(Drop)]
pub struct PairProgram<'p> {
    pub program: &'p Program,
    without_cell: Names<'p>,
    ghost named: { HasNames without_cell (program_view program.now).without_cell },
}

impl<'p> PairProgram<'p> {
    /// A program, whose names are to be looked up.
    pub(crate) fn new(alloc: Global, program: &'p Program) -> Result<PairProgram<'p>, AllocError>
        ensures { IfOk result (λ paired. paired.program.now ≡ program.now) }
    {
        Ok(PairProgram {
            program,
            without_cell: names(alloc, &program.without_cell)?,
        })
    }

    /// Whether a name is that of a constant or an instance, which are variables without a cell of their own.
    pub fn is_without_cell(&self, name: &str) -> bool
        ensures { result ≡ is_among (program_view self.now.program.now).without_cell name.now }
    {
        self.without_cell.contains(name)
    }
}
