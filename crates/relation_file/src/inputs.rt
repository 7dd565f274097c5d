// What INPUT lines break.
ghost use Rattle.std.specs.Prelude.{◌≡◌, List};
ghost use Rattle.rules.specs.Rules.{first_in};
ghost use Rattle.program_tree.specs.Cells.{is_input as plays_input};
ghost use Rattle.plc_types.specs.Enumerations.{paired_type};
ghost use Rattle.source_tree.specs.SyntaxView.{name_view};
ghost use Rattle.program_tree.specs.View.{cell_view, cells_view};
ghost use Rattle.indexmap.specs.IndexSet.{contains_text};
ghost use Rattle.candidates.specs.ByPath.{found_view};
ghost use Rattle.relation_lines.specs.Lines.{LineData};
ghost use Rattle.relation_file.specs.Inputs.{broken_at_cell, are_alike, is_same_flag, is_same_range, is_listed, all_listed};
ghost use Rattle.relation_file.specs.Broken.{broken_name, broken_pair};
ghost use Rattle.candidates.specs.PairView.{old_of, new_of};
ghost use Rattle.relation_file.specs.Seen.{Recalls};

use crate::seen::Seen;
use crate::unless::{breaks, unless};
use candidates::Pair;
use indexmap::IndexSet;
use plc_types::Range;
use program_tree::{Cell, Part};
use rules::{Refusal, Rule};
use scan_model::Side;
use source_tree::Name;

fn is_input(part: Part) -> bool
    ensures { result ≡ plays_input part }
{
    match part {
        Part::Input => true,
        Part::Fault | Part::Output | Part::Local => false,
    }
}

// What a name breaks: N2 where it is no variable, N4 where it is a variable without a cell or no input, and P2 where a line before
// named it.
fn at_cell(
    again: bool,
    without_cell: bool,
    name: &Name,
    cell: Option<(usize, &Cell)>,
) -> Option<Refusal>
    ensures { result ≡ first_in (broken_at_cell again without_cell (name_view name.now) (found_view cell.entry)) }
{
    match cell {
        None if without_cell => breaks(Rule::WrongUse, name.at),
        None => breaks(Rule::UnknownName, name.at),
        Some((_, cell)) => {
            if is_input(cell.part) {
                unless(!again, Rule::InputCount, name.at)
            } else {
                breaks(Rule::WrongUse, name.at)
            }
        }
    }
}

/// What a name of an INPUT line breaks.
pub(crate) fn name_refusal(pair: &Pair<'_>, seen: &Seen, side: Side, name: &Name) -> Option<Refusal>
    ensures { (before : List LineData) → Recalls seen.now before → result ≡ first_in (broken_name (old_of pair.now) (new_of pair.now) side before (name_view name.now)) }
{
    let text = name.text.as_str();
    match side {
        Side::Old => {
            let without_cell = pair.old.is_without_cell(text);
            at_cell(
                seen.of_old.contains(text),
                without_cell,
                name,
                pair.find_old(text),
            )
        }
        Side::New => {
            let without_cell = pair.new.is_without_cell(text);
            at_cell(
                seen.of_new.contains(text),
                without_cell,
                name,
                pair.find_new(text),
            )
        }
    }
}

fn is_same_range(range: Range, other: Range) -> bool
    ensures { result ≡ is_same_range range other }
{
    range.low == other.low && range.high == other.high
}

fn is_same_flag(flag: bool, other: bool) -> bool
    ensures { result ≡ is_same_flag flag other }
{
    flag == other
}

// Whether two inputs are of one type with the same bounds.
fn are_alike(pair: &Pair<'_>, old: Option<(usize, &Cell)>, new: Option<(usize, &Cell)>) -> bool
    ensures { result ≡ are_alike (paired_type (old_of pair.now).types (new_of pair.now).types) (found_view old.entry) (found_view new.entry) }
{
    match (old, new) {
        (Some((_, old)), Some((_, new))) => {
            old.kind.is_same(pair.paired(new.kind))
                && is_same_flag(old.is_subrange, new.is_subrange)
                && is_same_range(old.range, new.range)
        }
        (_, _) => false,
    }
}

/// What the names of a line break that names an input of each program: P1 where they differ.
pub(crate) fn pair_refusal(pair: &Pair<'_>, seen: &Seen, old: &Name, new: &Name) -> Option<Refusal>
    ensures { (before : List LineData) → Recalls seen.now before → result ≡ first_in (broken_pair (old_of pair.now) (new_of pair.now) before (name_view old.now) (name_view new.now)) }
{
    let alike = are_alike(
        pair,
        pair.find_old(old.text.as_str()),
        pair.find_new(new.text.as_str()),
    );
    let of_old = name_refusal(pair, seen, Side::Old, old);
    let of_new = name_refusal(pair, seen, Side::New, new);
    Refusal::earlier(of_old, of_new).or(unless(alike, Rule::InputsDiffer, old.at))
}

// Whether a cell is no input, or is named.
fn is_listed(names: &IndexSet<String>, cell: &Cell) -> bool
    ensures { result ≡ is_listed (contains_text names.now) (cell_view cell.now) }
{
    !is_input(cell.part) || names.contains(cell.path.as_str())
}

/// Whether each input is named.
pub(crate) fn all_listed(names: &IndexSet<String>, cells: &[Cell]) -> bool
    ensures { result ≡ all_listed (contains_text names.now) (cells_view cells.now) }
{
    for cell in cells {
        if !is_listed(names, cell) {
            return false;
        }
    }
    true
}
