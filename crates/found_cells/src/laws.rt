// The functions do nothing: their clauses are the laws.
ghost use Rattle.std.specs.Prelude.{◌≡◌, ◌+◌, ℕ, List, length, codes, true, Some, slice_get};
ghost use Rattle.std.specs.List.{IsDistinct};
ghost use Rattle.std.specs.Str.{bytes_eq};
ghost use Rattle.plc_types.specs.declared.data_type.DataType.{DataType};
ghost use Rattle.plc_types.specs.Enumerations.{paired_type};
ghost use Rattle.source_tree.specs.Syntax.{Named, PathData, program, PouData, FileData};
ghost use Rattle.program_tree.specs.Tree.{ProgramData};
ghost use Rattle.naming.specs.FileScope.{pou_at};
ghost use Rattle.scan_model.specs.Candidates.{paths_of};
ghost use Rattle.typing.specs.declared.member.Member.{Member};
ghost use Rattle.typing.specs.declared.scope.Meaning.{Meaning};
ghost use Rattle.typing.specs.declared.scope.Place.TheVariants as places;
ghost use Rattle.typing.specs.Typing.{by_path};
ghost use Rattle.typing.specs.Programs.{cell_meaning, cell_among, own_type, pair_means};
ghost use Rattle.typing.specs.Places.{sizes_of};
ghost use Rattle.typing.specs.Members.{scope_of};
ghost use Rattle.typing.specs.TypedPrograms.{fault_cell, typed_program};
ghost use Rattle.cell_paths.specs.typed_cells.Premises.{UsesItsBlocks, IsOrdered};
ghost use Rattle.cell_paths.specs.Paths.{StandsFor, paths_behind};
ghost use Rattle.found_cells.specs.Names.{AreNamedOnce, HaveNoPoints};
ghost use Rattle.found_cells.specs.Clauses.{IsWholePath, of_program, in_clause};

/// Where each name of a POU is declared once, and no point stands in a name, no two cells of a PROGRAM have one path.
pub fn law_paths_once()
    ensures { (f : FileData) → AreNamedOnce f → HaveNoPoints f → (k : ℕ) (p : PouData) → pou_at f k ≡ Some p → p.pou_type ≡ program
        → IsDistinct bytes_eq (paths_of (typed_program f k p).cells) }
{}

/// FAULT is the first cell of a PROGRAM, and is found as that.
pub fn law_fault()
    ensures { (f : FileData) (k : ℕ) (p : PouData) (paired : DataType → DataType) (start : ℕ) → cell_among paired (codes "FAULT") start (typed_program f k p).cells ≡ Some (cell_meaning paired start fault_cell) }
{}

/// Where that is so, the cell that is found by the path of names is the one at their place.
pub fn law_found_cells()
    ensures { (f : FileData) → UsesItsBlocks f → IsOrdered f → AreNamedOnce f → HaveNoPoints f → (k : ℕ) (p : PouData) → pou_at f k ≡ Some p → p.pou_type ≡ program
        → (path : List ℕ) (place : ℕ) (m : Member) → StandsFor f k path place m → (n : ℕ) (q : List ℕ) → slice_get (paths_behind path m) n ≡ Some q
        → (paired : DataType → DataType) (start : ℕ) → cell_among paired q start (typed_program f k p).cells ≡ Some (in_clause paired (start + (place + n)) m.meaning) }
{}

/// The path of a cell in the statements of a PROGRAM is that of the same cell in clauses: behind `old`, where the PROGRAM is OLD, and behind
/// `new`, where it is NEW, whose cells stand behind those of OLD.
pub fn law_clause_names()
    ensures { (f : FileData) → UsesItsBlocks f → IsOrdered f → AreNamedOnce f → HaveNoPoints f → (k : ℕ) (p : PouData) → pou_at f k ≡ Some p → p.pou_type ≡ program
        → (q : PathData) (m : Meaning) (c : ℕ) → IsWholePath f p q → (scope_of f (sizes_of f) k).means (by_path q) ≡ Some m → m.place ≡ places.Cell c
        → (other : ProgramData) (n : Named)
        → (n.text ≡ codes "OLD" → pair_means (typed_program f k p) other (by_path (of_program n q)) ≡ Some (in_clause own_type c m))
        × (n.text ≡ codes "NEW" → pair_means other (typed_program f k p) (by_path (of_program n q)) ≡ Some (in_clause (paired_type other.types (typed_program f k p).types) (length other.cells + c) m)) }
{}
