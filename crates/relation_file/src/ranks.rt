// The ranks of lines: RELATION first, INVARIANT last.
ghost use Rattle.std.specs.Prelude.{◌≡◌, ◌<◌, List, [], ◌∷◌};
ghost use Rattle.relation_lines.specs.Lines.{LineData};
ghost use Rattle.relation_lines.specs.View.{content_view, line_view};
ghost use Rattle.relation_file.specs.Order.{rank_of, is_out_of_order, has_needed};
ghost use Rattle.relation_file.specs.Seen.{HasRanks};

use relation_lines::{Condition, Content, Line, Setting};

/// The rank of a line: RELATION, FAULTS, DEPTH, CONFLICTS, INPUT, ENV, RELATE and INVARIANT stand in this order.
pub(crate) fn rank_of(content: &Content) -> usize
    ensures rank { result ≡ rank_of (content_view content.now) }
    ensures within { result < 8 }
{
    match content {
        Content::Setting(Setting::Version, _, _) => 0,
        Content::Faults(_, _) => 1,
        Content::Setting(Setting::Depth, _, _) => 2,
        Content::Setting(Setting::Conflicts, _, _) => 3,
        Content::Paired(_, _, _) | Content::Single(_, _, _) => 4,
        Content::Clause(Condition::Environment, _) => 5,
        Content::Clause(Condition::Relate, _) => 6,
        Content::Clause(Condition::Invariant, _) => 7,
    }
}

/// The ranks of the lines so far: that of the last one, and which there were.
#[derive(Clone, Copy)]
pub(crate) struct Ranks {
    pub above: usize,
    pub had: [bool; 8],
}

impl Ranks {
    /// Before the first line.
    pub(crate) fn new() -> Ranks
        ensures { HasRanks result [] }
    {
        Ranks {
            above: 0,
            had: [false; 8],
        }
    }

    /// Whether a line comes before one of the rank of the last one, or repeats a rank that stands once.
    pub(crate) fn is_out_of_order(&self, content: &Content) -> bool
        ensures { (before : List LineData) → HasRanks self.now before → result ≡ is_out_of_order (content_view content.now) before }
    {
        let rank = rank_of(content);
        rank < self.above || rank < 4 && self.had[rank]
    }

    /// Whether each rank is there that may not be missing.
    pub(crate) fn has_needed(&self) -> bool
        ensures { (before : List LineData) → HasRanks self.now before → result ≡ has_needed before }
    {
        self.had[0] && self.had[1] && self.had[2] && self.had[3] && self.had[6]
    }

    /// The ranks with that of one more line.
    pub(crate) fn with(&self, line: &Line) -> Ranks
        ensures { (before : List LineData) → HasRanks self.now before → HasRanks result (line_view line.now ∷ before) }
    {
        let rank = rank_of(&line.content);
        let mut had = self.had;
        had[rank] = true;
        Ranks { above: rank, had }
    }
}
