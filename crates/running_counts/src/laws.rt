// The function does nothing: its clause is the law.
ghost use Rattle.std.specs.Prelude.{◌≡◌, ℕ};
ghost use Rattle.source_tree.specs.Syntax.{PouData, FileData};
ghost use Rattle.flat_form.specs.FlatPrograms.{is_short};
ghost use Rattle.typing.specs.TypedPrograms.{typed_program};
ghost use Rattle.running_pous.specs.Stated.{stated_program};

/// The rule on the number of flat statements (M5) answers alike for the program that a file states, in which a POU that never runs has no
/// statements, and for the whole typed program.
pub fn law_short()
    ensures { (f : FileData) (k : ℕ) (p : PouData) → is_short (stated_program f k p) ≡ is_short (typed_program f k p) }
{}
