// What is kept of the lines so far.
ghost use Rattle.std.specs.Prelude.{◌≡◌, ℕ, List, [], ◌∷◌, ◌++◌, OnOk};
ghost use Rattle.source_tree.specs.SyntaxView.{name_view};
ghost use Rattle.relation_lines.specs.Lines.{LineData};
ghost use Rattle.relation_lines.specs.View.{content_view, line_view};
ghost use Rattle.relation_file.specs.Inputs.{named_by};
ghost use Rattle.relation_file.specs.Seen.{texts, Lists, Recalls};

use crate::ranks::Ranks;
use indexmap::IndexSet;
use relation_lines::{Content, Line};
use scan_model::Side;
use source_tree::Name;
use std::alloc::{AllocError, Global};

/// The ranks of the lines so far, and the names by which they name inputs.
#[derive(Drop)]
pub(crate) struct Seen {
    pub ranks: Ranks,
    pub of_old: IndexSet<String>,
    pub of_new: IndexSet<String>,
}

// Adds a name to others.
fn list(names: &mut IndexSet<String>, name: &Name) -> Result<(), AllocError>
    ensures { OnOk result ((before : List (List ℕ)) → Lists names.old before → Lists names.new ((name_view name.now).text ∷ before)) }
{
    names.insert(name.text.clone()?)?;
    Ok(())
}

// The name by which a line names an input of a program.
fn named_by(side: Side, content: &Content) -> Option<&Name>
    ensures { texts result ≡ named_by side (content_view content.now) }
{
    match (side, content) {
        (Side::Old, Content::Paired(name, _, _)) => Some(name),
        (Side::New, Content::Paired(_, _, name)) => Some(name),
        (Side::Old, Content::Single(Side::Old, _, name)) => Some(name),
        (Side::New, Content::Single(Side::New, _, name)) => Some(name),
        _ => None,
    }
}

// Adds what a line names of a program.
fn list_line(names: &mut IndexSet<String>, side: Side, content: &Content) -> Result<(), AllocError>
    ensures { OnOk result ((before : List (List ℕ)) → Lists names.old before → Lists names.new (named_by side (content_view content.now) ++ before)) }
{
    match named_by(side, content) {
        None => Ok(()),
        Some(name) => list(names, name),
    }
}

impl Seen {
    /// Before the first line.
    pub(crate) fn new(alloc: Global) -> Seen
        ensures { Recalls result [] }
    {
        Seen {
            ranks: Ranks::new(),
            of_old: IndexSet::new(alloc),
            of_new: IndexSet::new(alloc),
        }
    }

    /// One more line.
    pub(crate) fn note(&mut self, line: &Line) -> Result<(), AllocError>
        ensures { OnOk result ((before : List LineData) → Recalls self.old before → Recalls self.new (line_view line.now ∷ before)) }
    {
        self.ranks = self.ranks.with(line);
        list_line(&mut self.of_old, Side::Old, &line.content)?;
        list_line(&mut self.of_new, Side::New, &line.content)?;
        Ok(())
    }
}
