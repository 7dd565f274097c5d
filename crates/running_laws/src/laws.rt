// The functions do nothing: their clauses are the laws.
ghost use Rattle.std.specs.Prelude.{◌≡◌, ◌↔◌, ℕ, List};
ghost use Rattle.source_tree.specs.Syntax.{PouData, FileData};
ghost use Rattle.meaning.specs.Values.{State};
ghost use Rattle.scan_model.specs.declared.verdict.Verdict.{Verdict};
ghost use Rattle.scan_model.specs.declared.relation.Ending.{Ending};
ghost use Rattle.scan_model.specs.Scans.{scanned};
ghost use Rattle.scan_model.specs.InRange.{Row};
ghost use Rattle.scan_model.specs.Pairs.{RelationData, Pair, after_row};
ghost use Rattle.scan_model.specs.Runs.{IsRun};
ghost use Rattle.scan_model.specs.Verdicts.{IsVerdict};
ghost use Rattle.typing.specs.TypedPrograms.{typed_program};
ghost use Rattle.running_pous.specs.Stated.{stated_program};

/// From every state, a scan of the program that a file states leads to the state to which one of its whole typed program leads.
pub fn law_scans()
    ensures { (f : FileData) (k : ℕ) (p : PouData) (s : State) → scanned (stated_program f k p) s ≡ scanned (typed_program f k p) s }
{}

/// So does a row, from every pair, under every relation.
pub fn law_rows()
    ensures { (f g : FileData) (k l : ℕ) (p q : PouData) (rel : RelationData) (row : Row) (pair : Pair)
        → after_row (stated_program f k p) (stated_program g l q) rel row pair ≡ after_row (typed_program f k p) (typed_program g l q) rel row pair }
{}

/// A verdict on two programs that files state is one on their whole typed programs.
pub fn law_verdicts()
    ensures { (f g : FileData) (k l : ℕ) (p q : PouData) (rel : RelationData) (v : Verdict)
        → IsVerdict (stated_program f k p) (stated_program g l q) rel v ↔ IsVerdict (typed_program f k p) (typed_program g l q) rel v }
{}

/// And so is what is said of a replay: which rows are run, and how the run ends.
pub fn law_replays()
    ensures { (f g : FileData) (k l : ℕ) (p q : PouData) (rel : RelationData) (pair : Pair) (rows run : List Row) (ending : Ending)
        → IsRun (stated_program f k p) (stated_program g l q) rel pair rows run ending ↔ IsRun (typed_program f k p) (typed_program g l q) rel pair rows run ending }
{}
