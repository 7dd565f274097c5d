// A line has one spelling, and is read back from it.
ghost use Rattle.std.specs.Prelude.{◌≡◌, Option};
ghost use Rattle.finding_lines.specs.declared.line.Line.{Line};
ghost use Rattle.finding_lines.specs.Form.{IsLine};
ghost use Rattle.finding_lines.specs.Reading.{ReadsLine};
ghost use Rattle.finding_lines.specs.Spelling.{spelled};

/// Lines that are spelled alike are equal.
pub fn law_one_spelling()
    ensures { (l m : Line) → IsLine l → IsLine m → spelled l ≡ spelled m → l ≡ m }
{}

/// What reads a spelled line gives the line that was spelled.
pub fn law_read_back()
    ensures { (l : Line) (answer : Option Line) → IsLine l → ReadsLine (spelled l) answer → answer ≡ Some l }
{}
