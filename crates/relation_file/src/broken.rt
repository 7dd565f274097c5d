// What the lines of a relation file break.
ghost use Rattle.std.specs.Prelude.{◌≡◌, ℕ, List, [], ◌∷◌, ◌++◌, ◌&&◌, IfOk, OnOk, IfSome, IfNone};
ghost use Rattle.rules.specs.Rules.{first_in};
ghost use Rattle.program_tree.specs.Tree.{ProgramData};
ghost use Rattle.indexmap.specs.IndexSet.{contains_text};
ghost use Rattle.relation_lines.specs.Lines.{LineData};
ghost use Rattle.relation_lines.specs.View.{content_view, line_view};
ghost use Rattle.relation_file.specs.Order.{in_limits};
ghost use Rattle.relation_file.specs.Inputs.{all_listed};
ghost use Rattle.relation_file.specs.Broken.{broken_parts, broken_line, missing_ranks, missing_inputs, broken_lines, broken_content, broken_clauses};
ghost use Rattle.relation_file.specs.FirstBroken.{IsFirstBroken};
ghost use Rattle.relation_file.specs.Stated.{IsFirstOf};
ghost use Rattle.candidates.specs.PairView.{old_of, new_of};
ghost use Rattle.relation_file.specs.Seen.{Recalls};

use crate::inputs::{all_listed, name_refusal, pair_refusal};
use crate::names::names_refusal;
use crate::seen::Seen;
use crate::unless::unless;
use candidates::Pair;
use clause_types::judge_clause;
use relation_lines::{Content, Line, Setting};
use rules::{Refusal, Rule};
use std::alloc::{AllocError, Global};

// Whether a number is from 1 to its greatest value.
fn in_limits(setting: Setting, value: u64) -> bool
    ensures { result ≡ in_limits setting value }
{
    let greatest = match setting {
        Setting::Version => 1,
        Setting::Depth => 64,
        Setting::Conflicts => 1_000_000,
    };
    1 <= value && value <= greatest
}

// What the parts of a line break.
fn parts_refusal(pair: &Pair<'_>, seen: &Seen, content: &Content) -> Option<Refusal>
    ensures { (before : List LineData) → Recalls seen.now before → result ≡ first_in (broken_parts (old_of pair.now) (new_of pair.now) before (content_view content.now)) }
{
    match content {
        Content::Setting(setting, value, at) => {
            unless(in_limits(*setting, *value), Rule::NumberLimits, *at)
        }
        Content::Faults(_, _) => None,
        Content::Paired(old, _, new) => pair_refusal(pair, seen, old, new),
        Content::Single(side, _, name) => name_refusal(pair, seen, *side, name),
        Content::Clause(_, clause) => names_refusal(&pair.scope, clause),
    }
}

// What a line breaks: R1 where its parts break nothing and it stands out of order.
fn line_refusal(pair: &Pair<'_>, seen: &Seen, line: &Line) -> Option<Refusal>
    ensures { (before : List LineData) → Recalls seen.now before → result ≡ first_in (broken_line (old_of pair.now) (new_of pair.now) before (line_view line.now)) }
{
    let parts = parts_refusal(pair, seen, &line.content);
    let late = seen.ranks.is_out_of_order(&line.content);
    parts.or(unless(!late, Rule::LineOrder, line.at))
}

// Whether each input of both programs is named.
fn has_inputs(pair: &Pair<'_>, seen: &Seen) -> bool
    ensures { result ≡ (all_listed (contains_text seen.now.of_old) (old_of pair.now).cells && all_listed (contains_text seen.now.of_new) (new_of pair.now).cells) }
{
    all_listed(&seen.of_old, &pair.old.program.cells)
        && all_listed(&seen.of_new, &pair.new.program.cells)
}

// What is missing at the end of a file: R1 a line, and P2 an input.
fn missing(pair: &Pair<'_>, seen: &Seen, end: usize) -> Option<Refusal>
    ensures { (before : List LineData) → Recalls seen.now before
        → result ≡ first_in (missing_ranks (old_of pair.now) (new_of pair.now) end before ++ missing_inputs (old_of pair.now) (new_of pair.now) end before) }
{
    let ranks = unless(seen.ranks.has_needed(), Rule::LineOrder, end);
    let inputs = unless(has_inputs(pair, seen), Rule::InputCount, end);
    Refusal::earlier(ranks, inputs)
}

// What the types of a clause break.
fn clause_refusal(
    alloc: Global,
    pair: &Pair<'_>,
    content: &Content,
) -> Result<Option<Refusal>, AllocError>
    ensures { IfOk result (λ first. first ≡ first_in (broken_content (old_of pair.now) (new_of pair.now) (content_view content.now))) }
{
    match content {
        Content::Clause(_, clause) => judge_clause(alloc, &pair.scope, clause),
        Content::Setting(_, _, _) | Content::Faults(_, _) => Ok(None),
        Content::Paired(_, _, _) | Content::Single(_, _, _) => Ok(None),
    }
}

/// What the lines so far break first, and what is kept of them for the next line.
#[derive(Drop)]
pub(crate) struct FirstBroken {
    pub seen: Seen,
    /// of the rules on lines and names
    pub on_lines: Option<Refusal>,
    /// of the rules on types
    pub on_types: Option<Refusal>,
}

impl FirstBroken {
    /// Before the first line.
    pub(crate) fn new(alloc: Global) -> FirstBroken
        ensures { (old new : ProgramData) (end : ℕ) → IsFirstBroken old new end [] result }
    {
        let seen = Seen::new(alloc);
        FirstBroken {
            seen,
            on_lines: None,
            on_types: None,
        }
    }

    /// One more line.
    pub(crate) fn note(
        &mut self,
        alloc: Global,
        pair: &Pair<'_>,
        line: &Line,
    ) -> Result<(), AllocError>
        ensures { OnOk result ((end : ℕ) (ls : List LineData) → IsFirstBroken (old_of pair.now) (new_of pair.now) end ls self.old → IsFirstBroken (old_of pair.now) (new_of pair.now) end (ls ++ line_view line.now ∷ []) self.new) }
    {
        let on_lines = Refusal::earlier(self.on_lines, line_refusal(pair, &self.seen, line));
        let of_clause = clause_refusal(alloc, pair, &line.content)?;
        let on_types = Refusal::earlier(self.on_types, of_clause);
        self.seen.note(line)?;
        self.on_lines = on_lines;
        self.on_types = on_types;
        Ok(())
    }

    // The first rule on lines and names, where the file has `end` bytes.
    fn first_on_lines(&self, pair: &Pair<'_>, end: usize) -> Option<Refusal>
        ensures { (ls : List LineData) → IsFirstBroken (old_of pair.now) (new_of pair.now) end ls self.now → result ≡ first_in (broken_lines (old_of pair.now) (new_of pair.now) end ls) }
    {
        Refusal::earlier(self.on_lines, missing(pair, &self.seen, end))
    }

    /// The first rule that the lines of a file of `end` bytes break: of those on lines and names, and then of those on types.
    pub(crate) fn first(&self, pair: &Pair<'_>, end: usize) -> Option<Refusal>
        ensures some { (ls : List LineData) → IsFirstBroken (old_of pair.now) (new_of pair.now) end ls self.now → IfSome result (IsFirstOf (old_of pair.now) (new_of pair.now) end ls) }
        ensures sound { (ls : List LineData) → IsFirstBroken (old_of pair.now) (new_of pair.now) end ls self.now → IfNone result (broken_lines (old_of pair.now) (new_of pair.now) end ls ≡ []) }
        ensures typing { (ls : List LineData) → IsFirstBroken (old_of pair.now) (new_of pair.now) end ls self.now → IfNone result (broken_clauses (old_of pair.now) (new_of pair.now) ls ≡ []) }
    {
        self.first_on_lines(pair, end).or(self.on_types)
    }
}
