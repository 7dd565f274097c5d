// The functions do nothing: their clauses are the laws.
ghost use Rattle.std.specs.Prelude.{◌≡◌, ℕ, ℤ, List, Option, true, false};
ghost use Rattle.plc_types.specs.declared.data_type.DataType.{DataType};
ghost use Rattle.source_tree.specs.Syntax.{Tree, Stmts, PartData};
ghost use Rattle.source_tree.specs.Levels.{IsLevelled, AreStmtsLevelled, ArePartsLevelled};
ghost use Rattle.program_tree.specs.Tree.{no_statements, statement};
ghost use Rattle.program_tree.specs.Leaving.{LeavesNothing};
ghost use Rattle.typing.specs.Typing.{Scope, type_of, is_unknown};
ghost use Rattle.typing.specs.Typed.{typed};
ghost use Rattle.typing.specs.TypedStatements.{typed_stmts, typed_list};
ghost use Rattle.typing.specs.TypedCharts.{typed_chart};
ghost use Rattle.typing.specs.Judged.{judged};
ghost use Rattle.typing.specs.JudgedStatements.{judged_stmts};
ghost use Rattle.typing.specs.JudgedExits.{judged_exits};
ghost use Rattle.typing.specs.JudgedCharts.{judged_parts};
ghost use Rattle.typed_programs.specs.Scopes.{Pous, BodyScope};
ghost use Rattle.typed_programs.specs.Statements.{IsTypedPart, AreTyped};
ghost use Rattle.typed_scopes.specs.Types.{IsOfType};
ghost use Rattle.typed_scopes.specs.Uses.{Usable, IsWithin, AreStmtsWithin, ArePartsWithin};
ghost use Rattle.typed_scopes.specs.Fitting.{ScopeFits};
ghost use Rattle.typed_scopes.specs.Charts.{ChartFits};

/// An expression that breaks no rule, whose names are all whole and may be used, is typed as one of its type, where that is known: the name of an instance
/// alone has none.
pub fn law_expressions()
    ensures { (pous : Pous) (b : BodyScope) (last : ℕ → ℤ) (scope : Scope) (uses : Usable) → ScopeFits pous b last scope uses
        → (expected : Option DataType) (e : Tree) → IsWithin uses e → IsLevelled e → (judged scope expected e).whole ≡ true → is_unknown (type_of scope expected e) ≡ false → IsOfType pous b last (type_of scope expected e) (typed scope expected e) }
{}

/// So are statements.
pub fn law_statements()
    ensures { (pous : Pous) (b : BodyScope) (last : ℕ → ℤ) (scope : Scope) (uses : Usable) → ScopeFits pous b last scope uses
        → (controls : List ℕ) (ss : Stmts) → AreStmtsWithin uses ss → AreStmtsLevelled ss → (judged_stmts scope controls ss).whole ≡ true → AreTyped pous b (typed_stmts scope ss) }
{}

/// And charts.
pub fn law_charts()
    ensures { (pous : Pous) (b : BodyScope) (last : ℕ → ℤ) (scope : Scope) (uses : Usable) → ScopeFits pous b last scope uses
        → (ps : List PartData) → ChartFits b scope ps → ArePartsWithin uses ps → ArePartsLevelled ps → (judged_parts scope ps).whole ≡ true → IsTypedPart pous b (typed_chart scope ps) }
{}

/// No EXIT and no RETURN leaves the statements of a POU or of an action whose EXITs stand in FORs, nor a chart that breaks no rule.
pub fn law_leaving()
    ensures statements { (scope : Scope) (ss : Stmts) → (judged_exits ss).whole ≡ true → LeavesNothing (typed_list scope ss) }
    ensures charts { (scope : Scope) (ps : List PartData) → (judged_parts scope ps).whole ≡ true → LeavesNothing (statement (typed_chart scope ps) no_statements) }
{}
