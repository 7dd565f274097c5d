// The lines of a file, each gone through as soon as it is read.
ghost use Rattle.std.specs.Prelude.{◌≡◌, ℕ, List, [], ◌∷◌, ◌++◌, IfOk, IfErr, OnOk};
ghost use Rattle.program_tree.specs.Tree.{ProgramData};
ghost use Rattle.candidates.specs.PairView.{old_of, new_of};
ghost use Rattle.relation_lines.specs.Lines.{LineData};
ghost use Rattle.relation_lines.specs.View.{line_view};
ghost use Rattle.relation_lines.specs.Whole.{IsLinesFault};
ghost use Rattle.relation_file.specs.LinePass.{HasPassed, GivesPass, IsPass};

use crate::broken::FirstBroken;
use crate::gathered::Gathered;
use candidates::Pair;
use grammar::Stop;
use relation_lines::{Line, has_ended, read_line, refuse};
use rules::Fault;
use source_tree::Tok;
use std::alloc::{AllocError, Global};
use token_rules::first_fault;

/// What is kept of the lines so far: what they break first, and what they state.
#[derive(Drop)]
pub(crate) struct LinePass {
    pub broken: FirstBroken,
    pub gathered: Gathered,
}

impl LinePass {
    // Before the first line.
    fn new(alloc: Global) -> LinePass
        ensures { (old new : ProgramData) (end : ℕ) → HasPassed old new end [] result }
    {
        let broken = FirstBroken::new(alloc);
        let gathered = Gathered::new(alloc);
        LinePass { broken, gathered }
    }

    // One more line.
    fn note(&mut self, alloc: Global, pair: &Pair<'_>, line: &Line) -> Result<(), AllocError>
        ensures { OnOk result ((end : ℕ) (ls : List LineData) → HasPassed (old_of pair.now) (new_of pair.now) end ls self.old → HasPassed (old_of pair.now) (new_of pair.now) end (ls ++ line_view line.now ∷ []) self.new) }
    {
        self.broken.note(alloc, pair, line)?;
        self.gathered.note(alloc, pair, line)?;
        Ok(())
    }
}

// What is kept of all the tokens as lines, or why reading stopped. Each line is judged, typed and let go before the next one is read.
fn pass_lines(
    alloc: Global,
    pair: &Pair<'_>,
    toks: &[Tok<'_>],
    end: usize,
) -> Result<LinePass, Stop>
    ensures { GivesPass (old_of pair.now) (new_of pair.now) end toks.now result }
{
    let mut pass = LinePass::new(alloc);
    let mut at = 0;
    for _turn in 0..toks.len() {
        if has_ended(toks, at) {
            return Ok(pass);
        }
        let (next, behind) = read_line(alloc, toks, end, at)?;
        pass.note(alloc, pair, &next)?;
        at = behind;
    }
    if has_ended(toks, at) {
        Ok(pass)
    } else {
        Err(refuse(toks, end, at))
    }
}

/// What is kept of the lines that the tokens of a relation file are, whose text has a length of `end` bytes.
///
/// # Errors
///
/// X1 and G2 come first, by place; then G1, at the first token with which no relation file goes on, else at `end`.
pub(crate) fn pass_over(
    alloc: Global,
    pair: &Pair<'_>,
    toks: &[Tok<'_>],
    end: usize,
) -> Result<LinePass, Fault>
    ensures read { IfOk result (IsPass (old_of pair.now) (new_of pair.now) end toks.now) }
    ensures refused { IfErr result (IsLinesFault toks.now) }
{
    if let Some(refusal) = first_fault(toks) {
        return Err(Fault::Refused(refusal));
    }
    Ok(pass_lines(alloc, pair, toks, end)?)
}
