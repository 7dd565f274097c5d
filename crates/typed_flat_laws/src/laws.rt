// The functions do nothing: their clauses are the laws.
ghost use Rattle.program_tree.specs.Tree.{ProgramData};
ghost use Rattle.scan_model.specs.InRange.{IsFitToRun};
ghost use Rattle.flat_form.specs.FlatPrograms.{flat_program};
ghost use Rattle.flat_form.specs.WellTyped.{IsWellTyped};
ghost use Rattle.node_core.specs.TypedFlats.{IsTypedFlat};
ghost use Rattle.typed_programs.specs.Programs.{IsTypedProgram};

/// A typed program owes its flat form nothing.
pub fn law_well_typed()
    ensures { (p : ProgramData) → IsTypedProgram p → IsWellTyped p }
{}

/// Its flat form is typed.
pub fn law_typed_flat()
    ensures { (p : ProgramData) → IsFitToRun p → IsTypedProgram p → IsTypedFlat (flat_program p) }
{}
