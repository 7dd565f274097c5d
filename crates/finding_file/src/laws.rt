// What was written is what is read next.
ghost use Rattle.std.specs.Prelude.{◌≡◌, ◌++◌, ℕ, List};
ghost use Rattle.finding_lines.specs.declared.line.Line.{Line};
ghost use Rattle.finding_lines.specs.Form.{IsLine};
ghost use Rattle.finding_lines.specs.Spelling.{spelled, written};
ghost use Rattle.finding_file.specs.Ahead.{ahead, ended};

/// Where a written line stands ahead, it is the next line, and what was written behind it follows.
pub fn law_written_is_next()
    ensures { (l : Line) (more : List ℕ) → IsLine l → ahead (written l ++ more) ≡ ended (spelled l) more }
{}
