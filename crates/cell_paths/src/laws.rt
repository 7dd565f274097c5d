// The functions do nothing: their clauses are the laws.
ghost use Rattle.std.specs.Prelude.{◌≡◌, ℕ, List, Some};
ghost use Rattle.source_tree.specs.Syntax.{program, PouData, FileData};
ghost use Rattle.naming.specs.FileScope.{pou_at};
ghost use Rattle.typing.specs.declared.member.Member.{Member};
ghost use Rattle.typing.specs.Places.{sizes_of};
ghost use Rattle.typing.specs.Members.{member_at};
ghost use Rattle.typing.specs.TypedPrograms.{typed_program};
ghost use Rattle.typed_cells.specs.Premises.{UsesItsBlocks, IsOrdered};
ghost use Rattle.cell_paths.specs.Paths.{HasNamedCells, StandsFor, HasPaths};

/// The cells of each name of a PROGRAM stand at the name's place, with paths that begin with the name.
pub fn law_named_cells()
    ensures { (f : FileData) → UsesItsBlocks f → IsOrdered f → (k : ℕ) (p : PouData) → pou_at f k ≡ Some p → p.pou_type ≡ program
        → (text : List ℕ) (m : Member) → member_at f (sizes_of f) k text ≡ Some m → HasNamedCells f p (typed_program f k p).cells text m }
{}

/// At the place of names that are joined by points stands the cell of that path, of the type and the range that the names stand for.
pub fn law_paths()
    ensures { (f : FileData) → UsesItsBlocks f → IsOrdered f → (k : ℕ) (p : PouData) → pou_at f k ≡ Some p → p.pou_type ≡ program
        → (path : List ℕ) (place : ℕ) (m : Member) → StandsFor f k path place m → HasPaths (typed_program f k p).cells path place m }
{}
