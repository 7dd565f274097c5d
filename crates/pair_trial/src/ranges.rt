// Values and rows in their ranges.
ghost use Rattle.std.specs.Prelude.{◌≡◌};
ghost use Rattle.plc_types.specs.Types.{in_range};
ghost use Rattle.program_tree.specs.View.{cells_view};
ghost use Rattle.scan_model.specs.Scans.{ranges_of};
ghost use Rattle.scan_model.specs.Pairs.{range_of_line, fits_lines};
ghost use Rattle.queries.specs.Ranges.{are_in_range};

use plc_types::{Range, Value};
use program_tree::Cell;
use scan_model::InputLine;

fn is_in_range(value: Value, range: Range) -> bool
    ensures { result ≡ in_range value range }
{
    range.low <= value && value <= range.high
}

/// Whether each cell has one value, in its range.
pub fn are_in_range(cells: &[Cell], values: &[Value]) -> bool
    ensures { result ≡ are_in_range (ranges_of (cells_view cells.now)) values.now }
{
    if cells.len() != values.len() {
        return false;
    }
    for (place, cell) in cells.iter().enumerate() {
        if !is_in_range(values[place], cell.range) {
            return false;
        }
    }
    true
}

/// The range of an input.
pub fn range_of_line(line: InputLine) -> Range
    ensures { result ≡ range_of_line line }
{
    match line {
        InputLine::Both { range, .. } => range,
        InputLine::Old { range, .. } => range,
        InputLine::New { range, .. } => range,
    }
}

/// Whether a row has one number for each INPUT line, in its range.
pub fn fits_lines(lines: &[InputLine], row: &[Value]) -> bool
    ensures { result ≡ fits_lines lines.now row.now }
{
    if lines.len() != row.len() {
        return false;
    }
    for i in 0..lines.len() {
        if !is_in_range(row[i], range_of_line(lines[i])) {
            return false;
        }
    }
    true
}
