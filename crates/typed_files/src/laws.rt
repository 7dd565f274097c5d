// The functions do nothing: their clauses are the laws.
ghost use Rattle.std.specs.Prelude.{◌≡◌, ℕ, [], Some};
ghost use Rattle.rules.specs.declared.rule.Refusal.{Refusal};
ghost use Rattle.source_tree.specs.Syntax.{PouData, FileData};
ghost use Rattle.source_tree.specs.Levels.{IsFileLevelled};
ghost use Rattle.naming.specs.FileScope.{pou_at};
ghost use Rattle.naming.specs.Circles.{IsBroken};
ghost use Rattle.whole_files.specs.bound_names.BoundNames.{IsBodyWithin};
ghost use Rattle.whole_files.specs.st_names.Bound.{program_number};
ghost use Rattle.typing.specs.Pous.{broken_types};
ghost use Rattle.running_pous.specs.Stated.{stated_program};
ghost use Rattle.typed_cells.specs.Uses.{uses_of_pou};
ghost use Rattle.typed_programs.specs.Programs.{IsTypedProgram};

/// In a levelled file that breaks no rule on names, the body of each POU uses nothing but what it may use.
pub fn law_uses()
    ensures { (f : FileData) → ((r : Refusal) → IsBroken f r → ⊥) → IsFileLevelled f → (k : ℕ) (d : PouData) → pou_at f k ≡ Some d → IsBodyWithin (uses_of_pou f k) d.body }
{}

/// Where a levelled file breaks no rule on names and none on types, the program that it states is typed. The count of its cells is not asked for.
pub fn law_typed()
    ensures { (f : FileData) → ((r : Refusal) → IsBroken f r → ⊥) → IsFileLevelled f → broken_types f ≡ []
        → (k : ℕ) (p : PouData) → program_number f ≡ Some k → pou_at f k ≡ Some p → IsTypedProgram (stated_program f k p) }
{}
