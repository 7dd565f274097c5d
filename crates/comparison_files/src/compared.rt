// What is compared: two programs and the relation between them.
ghost use Rattle.std.specs.Prelude.{◌≡◌, IfOk};
ghost use Rattle.queries.specs.Comparisons.{IsComparison};
ghost use Rattle.product_build.specs.Limits.{HasFewLines};
ghost use Rattle.typed_relations.specs.Readings.{IsRead};
ghost use Rattle.comparison_files.specs.Held.{comparison_in};

use pair_trial::Trial;
use program_tree::Program;
use scan_model::Relation;
use std::alloc::{AllocError, Global};
use std::marker::Model;

/// What is compared: two programs and the relation between them, as they were read from texts.
#[derive(Drop)]
pub struct Compared {
    pub(crate) old_program: Program,
    pub(crate) new_program: Program,
    pub(crate) relation: Relation,
}

impl Model for Compared {
    ghost use Rattle.program_tree.specs.contracts.typed.TypedStmt as stmt;
    ghost use Rattle.program_tree.specs.contracts.typed.TypedExpr as expr;
    ghost use Rattle.std.specs.Coded.{codes};
    ghost use Rattle.product_build.specs.MadeCircuits.{comparison_between};
    ghost use Rattle.comparison_files.specs.Held.{Held, IsHeld};

    ghost Value = { Held };

    ghost coded = { Prim.hlevel (codes, stmt.the_row.coded, expr.the_row.coded) };

    ghost view = { λ m. record { old_program = m.old_program; new_program = m.new_program; relation = m.relation } };

    ghost invariant = { λ m. IsHeld (comparison_between m.old_program m.new_program m.relation) };
}

impl Compared {
    /// The program OLD.
    pub fn old_program(&self) -> &Program
        ensures { result.now ≡ self.now.old_program }
    {
        &self.old_program
    }

    /// The program NEW.
    pub fn new_program(&self) -> &Program
        ensures { result.now ≡ self.now.new_program }
    {
        &self.new_program
    }

    /// The relation between them.
    pub fn relation(&self) -> &Relation
        ensures { result.now ≡ self.now.relation }
    {
        &self.relation
    }

    /// A pair on trial, both programs at their start.
    pub fn trial(&self, alloc: Global) -> Result<Trial<'_>, AllocError>
        ensures old { IfOk result (λ t. t.old_program ≡ self.now.old_program) }
        ensures new { IfOk result (λ t. t.new_program ≡ self.now.new_program) }
        ensures relation { IfOk result (λ t. t.relation ≡ self.now.relation) }
        ensures comparison { IsComparison (comparison_in self.now) }
    {
        Trial::new(alloc, &self.old_program, &self.new_program, &self.relation)
    }

    /// The laws of what was read from texts: it is typed, and its lines are few. It does nothing.
    pub fn laws(&self)
        ensures comparison { IsComparison (comparison_in self.now) }
        ensures read { IsRead (comparison_in self.now) }
        ensures lines { HasFewLines (comparison_in self.now) }
    {
        let _ = &self.relation;
    }
}
