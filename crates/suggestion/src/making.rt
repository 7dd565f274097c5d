// What is suggested for the text of a relation.
ghost use Rattle.std.specs.Prelude.{◌≡◌, IfOk, IfErr, IfSome, length};
ghost use Rattle.program_tree.specs.View.{program_view};
ghost use Rattle.scan_model.specs.InRange.{IsFitToRun};
ghost use Rattle.scan_model.specs.Pairs.{relation_view};
ghost use Rattle.scan_replay.specs.Duos.{AreComparable};
ghost use Rattle.line_trials.specs.Stating.{StatesRelation, StatesNoRelation};
ghost use Rattle.rules.specs.Faults.{IfRefused};
ghost use Rattle.line_trials.specs.Held.{runs_of};
ghost use Rattle.line_trials.specs.Lines.{lines_view, with_lines};
ghost use Rattle.line_trials.specs.Suggested.{HasHeld, IsSuggestion};

use crate::cells::Names;
use crate::dropping::{drop_failed, drop_refused};
use crate::leaving::{Leaving, first_leaving};
use crate::proposing::{Proposed, propose};
use crate::unkept::put_aside;
use crate::wording::Wording;
use line_trials::{Effort, InvariantLine, Trial, read_given, try_lines};
use plc_types::Value;
use program_tree::Program;
use rules::Fault;
use scan_model::Relation;
use std::alloc::{AllocError, Global};

/// A text with the lines that were added to it; the rows of the runs that were tried, and how many pairs these have; and where a scan
/// of the last run left the pair unrelated, the number of that scan.
#[derive(Drop)]
pub struct Suggestion {
    pub text: Vec<u8>,
    pub lines: Vec<InvariantLine>,
    pub runs: Vec<Vec<Vec<Value>>>,
    pub pairs: usize,
    pub unrelated: Option<usize>,
}

// A text, and the lines in it.
#[derive(Drop)]
struct Settled {
    text: Vec<u8>,
    lines: Vec<InvariantLine>,
}

// The lines that are taken, and the text with them; none where not even the text without lines is read back.
fn settle(
    alloc: Global,
    old: &Program,
    new: &Program,
    given: usize,
    text: &[u8],
    lines: Vec<InvariantLine>,
    runs: &[Vec<Vec<Value>>],
) -> Result<Option<Settled>, AllocError>
    requires old { IsFitToRun (program_view old.now) }
    requires new { IsFitToRun (program_view new.now) }
    ensures lines { IfOk result (λ o. IfSome o (λ s. s.text.items ≡ with_lines text.now (lines_view s.lines.items))) }
    ensures held { IfOk result (λ o. IfSome o (λ s. HasHeld (program_view old.now) (program_view new.now) given s.text.items (runs_of runs.now))) }
{
    let mut lines = lines;
    let start = text.len().saturating_add(1);
    for _ in 0..lines.len().saturating_add(1) {
        match try_lines(alloc, old, new, given, text, lines.as_slice(), runs)? {
            Trial::Held(text) => return Ok(Some(Settled { text, lines })),
            Trial::Refused(at) => drop_refused(&mut lines, start, at),
            Trial::Failed(marks) => drop_failed(&mut lines, marks.as_slice()),
        }
    }
    Ok(None)
}

// The text of a relation that is read, with those of the lines that hold on all runs.
fn suggestion_of(
    alloc: Global,
    old: &Program,
    new: &Program,
    relation: &Relation,
    text: &[u8],
    proposed: Proposed,
) -> Result<Suggestion, AllocError>
    requires comparable { AreComparable old.now new.now relation.now }
    requires stated { StatesRelation (program_view old.now) (program_view new.now) text.now (relation_view relation.now) }
    ensures lines { IfOk result (λ s. s.text.items ≡ with_lines text.now (lines_view s.lines.items)) }
    ensures held { IfOk result (λ s. HasHeld (program_view old.now) (program_view new.now) (length (relation_view relation.now).invariants) s.text.items (runs_of s.runs.items)) }
{
    let given = relation.invariant_clauses().len();
    let (pairs, unrelated) = (proposed.pairs, proposed.unrelated);
    let runs = proposed.runs;
    match settle(
        alloc,
        old,
        new,
        given,
        text,
        proposed.lines,
        runs.as_slice(),
    )? {
        Some(settled) => Ok(Suggestion {
            text: settled.text,
            lines: settled.lines,
            runs,
            pairs,
            unrelated,
        }),
        None => Ok(Suggestion {
            text: Vec::from_slice(alloc, text)?,
            lines: Vec::new(alloc),
            runs: Vec::new(alloc),
            pairs,
            unrelated,
        }),
    }
}

/// Adds INVARIANT lines to the text of a relation: lines that held on all pairs of runs from the start on rows that are allowed, which
/// are drawn from a seed, edges and the numbers of the texts first, as many as the effort allows. Where a scan left a pair unrelated there
/// is none.
pub fn suggest(
    alloc: Global,
    old: &Program,
    new: &Program,
    text: &[u8],
    wording: &Wording,
    effort: Effort,
) -> Result<Suggestion, Fault>
    requires old { IsFitToRun (program_view old.now) }
    requires new { IsFitToRun (program_view new.now) }

    // The text is the one that was given, with the lines behind it.
    ensures lines { IfOk result (λ s. s.text.items ≡ with_lines text.now (lines_view s.lines.items)) }

    // Read again, each INVARIANT clause that was added holds on all pairs of the runs, all of whose rows are allowed.
    ensures held { IfOk result (λ s. IsSuggestion (program_view old.now) (program_view new.now) text.now s.text.items (runs_of s.runs.items)) }
    ensures refused { IfErr result (IfRefused (StatesNoRelation (program_view old.now) (program_view new.now) text.now)) }
{
    let relation = read_given(alloc, old, new, text)?;
    let proposed = propose(alloc, old, new, &relation, text, wording, effort)?;
    Ok(suggestion_of(alloc, old, new, &relation, text, proposed)?)
}

// The scans that leave the lines that were added; none where their text is refused.
fn marks_of(
    alloc: Global,
    old: &Program,
    new: &Program,
    given: usize,
    made: &[u8],
    scans: &[Leaving],
) -> Result<Vec<Option<usize>>, AllocError>
    requires old { IsFitToRun (program_view old.now) }
    requires new { IsFitToRun (program_view new.now) }
{
    match read_given(alloc, old, new, made) {
        Ok(relation) => first_leaving(alloc, old, new, &relation, given, scans),
        Err(Fault::Refused(_)) => Ok(Vec::new(alloc)),
        Err(Fault::Memory) => Err(AllocError),
    }
}

/// Puts those lines of a suggestion into comments that some scans leave, with what leads out of them.
pub fn without_left(
    alloc: Global,
    old: &Program,
    new: &Program,
    text: &[u8],
    wording: &Wording,
    suggestion: Suggestion,
    scans: &[Leaving],
) -> Result<Suggestion, Fault>
    requires old { IsFitToRun (program_view old.now) }
    requires new { IsFitToRun (program_view new.now) }

    // As of what is suggested: the text is the one that was given, with the lines behind it, and what was added held on all pairs of the runs.
    ensures lines { IfOk result (λ s. s.text.items ≡ with_lines text.now (lines_view s.lines.items)) }
    ensures held { IfOk result (λ s. IsSuggestion (program_view old.now) (program_view new.now) text.now s.text.items (runs_of s.runs.items)) }
    ensures refused { IfErr result (IfRefused (StatesNoRelation (program_view old.now) (program_view new.now) text.now)) }
{
    let relation = read_given(alloc, old, new, text)?;
    let given = relation.invariants;
    let made = suggestion.text.as_slice();
    let marks = marks_of(alloc, old, new, given, made, scans)?;
    let names = Names {
        alloc,
        old,
        new,
        wording,
    };
    let mut lines = suggestion.lines;
    put_aside(&names, marks.as_slice(), scans, &mut lines)?;
    let proposed = Proposed {
        lines,
        runs: suggestion.runs,
        pairs: suggestion.pairs,
        unrelated: suggestion.unrelated,
    };
    Ok(suggestion_of(alloc, old, new, &relation, text, proposed)?)
}
