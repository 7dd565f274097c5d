// The functions do nothing: their clauses are the laws.
ghost use Rattle.std.specs.Prelude.{◌≡◌, ◌+◌, ◌≤◌, ℕ, List, length, Some};
ghost use Rattle.std.specs.List.{IsDistinct, slice_get};
ghost use Rattle.std.specs.Str.{bytes_eq};
ghost use Rattle.plc_types.specs.declared.data_type.DataType.{DataType};
ghost use Rattle.plc_types.specs.DataTypes.{is_same_type};
ghost use Rattle.source_tree.specs.Syntax.{PathData, Tree, FileData};
ghost use Rattle.program_tree.specs.Tree.{CellData, ProgramData};
ghost use Rattle.scan_model.specs.Candidates.{paths_of, same_if, same_as};
ghost use Rattle.typing.specs.declared.scope.Meaning.{Meaning};
ghost use Rattle.typing.specs.declared.scope.Place.TheVariants as places;
ghost use Rattle.typing.specs.Typing.{by_path};
ghost use Rattle.typing.specs.Places.{sizes_of};
ghost use Rattle.typing.specs.Members.{scope_of};
ghost use Rattle.typing.specs.Pous.{cell_count};
ghost use Rattle.front_end.specs.Texts.{HasFile, StatesProgram};
ghost use Rattle.found_cells.specs.Names.{HaveNoPoints};
ghost use Rattle.found_cells.specs.Clauses.{IsWholePath};
ghost use Rattle.accepted_cells.specs.OnlyCells.{HasCellsOfNames, StandsForCell};
ghost use Rattle.accepted_cells.specs.Assignments.{IsAssigned, WritesItsCell};

/// No name that a text declares in a POU has a point in it.
pub fn law_no_points()
    ensures { (text : List ℕ) (f : FileData) → HasFile text f → HaveNoPoints f }
{}

/// No two cells of the program that a text states have one path.
pub fn law_paths_once()
    ensures { (text : List ℕ) (p : ProgramData) → StatesProgram text p → IsDistinct bytes_eq (paths_of p.cells) }
{}

/// The cells of each name stand at the place that typing gives the name, have its path, its type and its range, and are found by that path.
pub fn law_cells_of_names()
    ensures { (text : List ℕ) (p : ProgramData) (states : StatesProgram text p) → HasCellsOfNames states.file states.number p.cells }
{}

/// The program has as many cells as are counted for it, and at most 4,096.
pub fn law_few_cells()
    ensures { (text : List ℕ) (p : ProgramData) (states : StatesProgram text p) → (length p.cells ≡ cell_count states.file states.number) × (length p.cells ≤ 4096) }
{}

/// A path that names a cell in the PROGRAM's statements names the same cell in clauses, behind `old` or `new`.
pub fn law_names_in_clauses()
    ensures { (text : List ℕ) (p : ProgramData) (states : StatesProgram text p) (q : PathData) (m : Meaning) (place : ℕ) → IsWholePath states.file states.pou q
        → (scope_of states.file (sizes_of states.file) states.number).means (by_path q) ≡ Some m → m.place ≡ places.Cell place → StandsForCell p q place m }
{}

/// Each assignment `q := e` in the PROGRAM writes one cell, and that is the cell of the path `q`: the one that `old.q` and `new.q` read.
pub fn law_assignments()
    ensures { (text : List ℕ) (p : ProgramData) (states : StatesProgram text p) (q : PathData) (e : Tree) → IsAssigned q e states.pou.body → WritesItsCell states.file states.number p q e }
{}

/// The candidate `SAME P` compares a cell of OLD with the cell of NEW that has its path: there is no other.
pub fn law_same_cells()
    ensures { (text : List ℕ) (new : ProgramData) → StatesProgram text new → (j : ℕ) (d : CellData) → slice_get new.cells j ≡ Some d
        → (pair_type : DataType → DataType) (c : CellData) (place behind : ℕ) → d.path ≡ c.path → same_as pair_type c place behind new.cells ≡ same_if c place (behind + j) (is_same_type c.kind (pair_type d.kind)) }
{}
