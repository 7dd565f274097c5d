// The programs of a comparison.
ghost use Rattle.std.specs.Prelude.{◌≡◌, IfOk};
ghost use Rattle.program_tree.specs.View.{cells_view, program_view};
ghost use Rattle.plc_types.specs.Enumerations.{paired_type};
ghost use Rattle.clause_types.specs.PairedTypes.{paired_in};
ghost use Rattle.clause_types.specs.PlacesByPath.{places_by_path};
ghost use Rattle.clause_types.specs.Pairs.{pair_means, old_places, new_places};
ghost use Rattle.typing.specs.Programs.{pair_scope};
ghost use Rattle.candidates.specs.ByPath.{placed_at, cell_named, found_view};

use crate::places::PairProgram;
use clause_types::PairScope;
use plc_types::DataType;
use program_tree::{Cell, Program};
use std::alloc::{AllocError, Global};

/// OLD and NEW, and their cells and values by the paths of clauses, with the data types of NEW as those of the pair.
#[derive(Drop)]
pub struct Pair<'p> {
    pub old: PairProgram<'p>,
    pub new: PairProgram<'p>,
    pub scope: PairScope<'p>,
    ghost scoped: { pair_means scope ≡ pair_scope (program_view old.program.now) (program_view new.program.now) },
    ghost finds_old: { old_places scope ≡ places_by_path (program_view old.program.now) },
    ghost finds_new: { new_places scope ≡ places_by_path (program_view new.program.now) },
    ghost paired: { paired_in scope.types ≡ paired_type (program_view old.program.now).types (program_view new.program.now).types },
}

// The cell at a place, with the place.
fn placed_at(cells: &[Cell], place: usize) -> Option<(usize, &Cell)>
    ensures { found_view result ≡ placed_at (cells_view cells.now) place }
{
    let cell = cells.get(place)?;
    Some((place, cell))
}

impl<'p> Pair<'p> {
    /// Two programs, whose cells are to be looked up.
    pub fn new(alloc: Global, old: &'p Program, new: &'p Program) -> Result<Pair<'p>, AllocError>
        ensures { IfOk result (λ pair. (pair.old.program.now ≡ old.now) × (pair.new.program.now ≡ new.now)) }
    {
        Ok(Pair {
            old: PairProgram::new(alloc, old)?,
            new: PairProgram::new(alloc, new)?,
            scope: PairScope::new(alloc, old, new)?,
        })
    }

    /// The first cell of a path in OLD, with its place.
    pub fn find_old(&self, path: &str) -> Option<(usize, &Cell)>
        ensures { found_view result ≡ cell_named path.now (program_view self.now.old.program.now).cells }
    {
        let place = self.scope.find_old_place(path)?;
        placed_at(self.old.program.cells(), place)
    }

    /// The first cell of a path in NEW, with its place.
    pub fn find_new(&self, path: &str) -> Option<(usize, &Cell)>
        ensures { found_view result ≡ cell_named path.now (program_view self.now.new.program.now).cells }
    {
        let place = self.scope.find_new_place(path)?;
        placed_at(self.new.program.cells(), place)
    }

    /// What a data type of NEW is in the pair.
    pub fn paired(&self, kind: DataType) -> DataType
        ensures { result ≡ paired_type (program_view self.now.old.program.now).types (program_view self.now.new.program.now).types kind }
    {
        self.scope.types.paired(kind)
    }
}
