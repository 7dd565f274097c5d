// The functions do nothing: their clauses are the laws. Each is of a file where each POU uses the blocks of its instances, and none is in
// terms of itself.
ghost use Rattle.std.specs.Prelude.{◌≡◌, ℕ, Bool, true, false, List, [], Some, All};
ghost use Rattle.call_order.specs.Marks.{is_marked};
ghost use Rattle.source_tree.specs.Syntax.{PartData, chart, program, PouData, FileData};
ghost use Rattle.source_tree.specs.Levels.{MayDo};
ghost use Rattle.program_tree.specs.ChartPlaces.{AreRisingFrom};
ghost use Rattle.naming.specs.Broken.{variables_twice};
ghost use Rattle.naming.specs.FileScope.{pou_at, is_program};
ghost use Rattle.naming.specs.Scopes.{variables_in_pou};
ghost use Rattle.typing.specs.declared.member.Member.{Member};
ghost use Rattle.typing.specs.Reached.{reached};
ghost use Rattle.typing.specs.Places.{sizes_of};
ghost use Rattle.typing.specs.Members.{member_at, scope_of, is_function};
ghost use Rattle.running_pous.specs.Stated.{shortened};
ghost use Rattle.typed_programs.specs.Statements.{IsFlagOf};
ghost use Rattle.typed_programs.specs.Programs.{IsTypedProgram};
ghost use Rattle.typed_scopes.specs.Charts.{cells_of_chart};
ghost use Rattle.typed_scopes.specs.Fitting.{ScopeFits};
ghost use Rattle.typed_cells.specs.Uses.{uses_of_pou};
ghost use Rattle.typed_cells.specs.Places.{last, scope_over, pous};
ghost use Rattle.typed_cells.specs.Premises.{UsesItsBlocks, IsOrdered, AreWhole};
ghost use Rattle.typed_cells.specs.AtNames.{HasCellsAt};
ghost use Rattle.typed_cells.specs.Bodies.{IsTypedIn, IsBodySound};

/// The cells at the place of a name are its variable's.
pub fn law_cells_at_names()
    ensures { (f : FileData) → UsesItsBlocks f → IsOrdered f → (k : ℕ) (p : PouData) → pou_at f k ≡ Some p
        → (text : List ℕ) (m : Member) → member_at f (sizes_of f) k text ≡ Some m → HasCellsAt f k p text m }
{}

/// What the names of a POU that is reached stand for, as far as its body may use them, fits its cells, whichever POUs run.
pub fn law_scope_fits()
    ensures { (f : FileData) (runs : ℕ → Bool) → UsesItsBlocks f → IsOrdered f → (k : ℕ) (p : PouData) → pou_at f k ≡ Some p → is_marked (reached f) k ≡ true
        → ScopeFits (pous f runs) (scope_over f k p) (last f) (scope_of f (sizes_of f) k) (uses_of_pou f k) }
{}

/// Where each name of a POU that is no FUNCTION is declared once, the cells of its chart are flags, which rise behind all cells that
/// statements may set.
pub fn law_chart_cells()
    ensures { (f : FileData) → UsesItsBlocks f → IsOrdered f → (k : ℕ) (p : PouData) → pou_at f k ≡ Some p
        → (ps : List PartData) → p.body ≡ chart ps → (fault : Bool) → (variables_twice fault [] (variables_in_pou p)).whole ≡ true → is_function p.pou_type ≡ false
        → All (IsFlagOf (scope_over f k p)) (cells_of_chart (scope_of f (sizes_of f) k) ps) × AreRisingFrom (scope_over f k p).settable (cells_of_chart (scope_of f (sizes_of f) k) ps) }
{}

/// A body that breaks no rule, and uses only what it may, is typed over the cells of its POU, whichever POUs run.
pub fn law_bodies()
    ensures { (f : FileData) (runs : ℕ → Bool) → UsesItsBlocks f → IsOrdered f → (k : ℕ) (p : PouData) → pou_at f k ≡ Some p → is_marked (reached f) k ≡ true
        → (variables_twice (is_program p.pou_type) [] (variables_in_pou p)).whole ≡ true → MayDo p.pou_type p.body → IsBodySound (scope_of f (sizes_of f) k) (uses_of_pou f k) p.body
        → IsTypedIn f runs k p }
{}

/// Where no declaration of a variable breaks a rule, and the body of each POU that is reached is typed over its cells, a PROGRAM that is
/// reached is typed, whichever POUs run.
pub fn law_programs()
    ensures { (f : FileData) (runs : ℕ → Bool) → UsesItsBlocks f → IsOrdered f → AreWhole f
        → ((k : ℕ) (p : PouData) → pou_at f k ≡ Some p → is_marked (reached f) k ≡ true → IsTypedIn f runs k p)
        → (k : ℕ) (p : PouData) → pou_at f k ≡ Some p → p.pou_type ≡ program → is_marked (reached f) k ≡ true → IsTypedProgram (shortened f runs k p) }
{}
