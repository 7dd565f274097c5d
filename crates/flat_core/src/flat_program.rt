// Flat programs.
ghost use Rattle.std.specs.Prelude.{[], length};
ghost use Rattle.program_tree.specs.View.{cells_view};
ghost use Rattle.flat_core.specs.FlatRules.{AreFlatOver};
ghost use Rattle.flat_core.specs.StatementView.{flats_of, flats_view};

use crate::flat_tree::FlatStmt;
use program_tree::{Cell, Scratch};

/// A program in flat form: its cells, FAULT first, its scratch cells, and the statements of a scan. It keeps the rules of flat programs.
#[derive(Drop)]
pub struct Flat {
    pub cells: Vec<Cell>,
    pub scratch: Vec<Scratch>,
    pub body: Vec<FlatStmt>,
    ghost rules: { ∥ AreFlatOver (length (cells_view cells.items)) scratch.items [] (flats_of (flats_view body.items)) ∥₁ },
}

impl Flat {
    ghost use Rattle.flat_core.specs.FlatRules.{IsFlat};
    ghost use Rattle.flat_core.specs.FlatView.{flat_program_view};

    /// The law that a flat program keeps the rules of flat programs. It does nothing.
    pub fn keeps_rules(&self)
        ensures { IsFlat (flat_program_view self.now) }
    {}
}
