// The names of inputs.
ghost use Rattle.std.specs.Prelude.{◌≡◌, IfOk, string_bytes};
ghost use Rattle.program_tree.specs.View.{cells_view};
ghost use Rattle.scan_model.specs.Candidates.{path_at, paths_of};
ghost use Rattle.finding_report.specs.Names.{input_name};

use program_tree::Cell;
use scan_model::InputLine;
use std::alloc::{AllocError, Global};

// The path of the cell at a place.
fn path_at<'p>(cells: &'p [Cell], place: usize) -> &'p str
    ensures { result.now ≡ path_at (paths_of (cells_view cells.now)) place }
{
    match cells.get(place) {
        Some(cell) => cell.path.as_str(),
        None => "",
    }
}

/// `A=B`, `OLD A` or `NEW B`.
pub(crate) fn input_name(
    alloc: Global,
    old: &[Cell],
    new: &[Cell],
    line: InputLine,
) -> Result<String, AllocError>
    ensures { IfOk result (λ name. string_bytes name ≡ input_name (cells_view old.now) (cells_view new.now) line) }
{
    match line {
        InputLine::Both {
            old: first,
            new: second,
            ..
        } => {
            let mut name = String::from_str(alloc, path_at(old, first))?;
            name.push_str("=")?;
            name.push_str(path_at(new, second))?;
            Ok(name)
        }
        InputLine::Old { place, .. } => {
            let mut name = String::from_str(alloc, "OLD ")?;
            name.push_str(path_at(old, place))?;
            Ok(name)
        }
        InputLine::New { place, .. } => {
            let mut name = String::from_str(alloc, "NEW ")?;
            name.push_str(path_at(new, place))?;
            Ok(name)
        }
    }
}
