// The function does nothing: its clause is the law.
ghost use Rattle.std.specs.Prelude.{◌≡◌, ℕ, [], Some};
ghost use Rattle.rules.specs.declared.rule.Refusal.{Refusal};
ghost use Rattle.source_tree.specs.Syntax.{PouData, FileData};
ghost use Rattle.source_tree.specs.Levels.{IsFileLevelled};
ghost use Rattle.naming.specs.FileScope.{pou_at};
ghost use Rattle.naming.specs.Circles.{IsBroken};
ghost use Rattle.typing.specs.Pous.{broken_types};
ghost use Rattle.typing.specs.TypedPrograms.{typed_program};
ghost use Rattle.stated_cells.specs.StatedCells.{HasStatedCells};

/// Where a levelled file breaks no rule on names and none on types, the cells of each of its POUs, taken as a PROGRAM, are those of its types.
pub fn law_stated_cells()
    ensures { (f : FileData) → ((r : Refusal) → IsBroken f r → ⊥) → IsFileLevelled f → broken_types f ≡ []
        → (k : ℕ) (p : PouData) → pou_at f k ≡ Some p → HasStatedCells (typed_program f k p) }
{}
