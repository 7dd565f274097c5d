ghost use Rattle.std.specs.Prelude.{◌≡◌, map, IfOk};
ghost use Rattle.program_tree.specs.View.{cell_view, cells_view};
ghost use Rattle.query_formulas.specs.CellShapes.{is_enumeration, shape_of, shapes_of};
ghost use Rattle.pair_circuits.specs.LineShapes.{shape_at, shape_of_line, shapes_of_lines};

use plc_types::{DataType, Elementary, Range};
use program_tree::Cell;
use query_formulas::CellShape;
use scan_model::InputLine;
use std::alloc::{AllocError, Global};

fn is_enumeration(kind: DataType) -> bool
    ensures { result ≡ is_enumeration kind }
{
    matches!(kind, DataType::Enumeration(_))
}

// The shape of a cell.
fn shape(cell: &Cell) -> CellShape
    ensures { result ≡ shape_of (cell_view cell.now) }
{
    CellShape {
        kind: cell.kind.carrier(),
        bounded: cell.is_subrange || is_enumeration(cell.kind),
        range: cell.range,
        initial: cell.initial,
    }
}

/// The shapes of cells, in their order.
pub(crate) fn shapes(alloc: Global, cells: &[Cell]) -> Result<Vec<CellShape>, AllocError>
    ensures { IfOk result (λ all. all.items ≡ shapes_of (cells_view cells.now)) }
{
    let mut all = Vec::new(alloc);
    for cell in cells {
        all.push(shape(cell))?;
    }
    Ok(all)
}

// The shape of the cell at a place.
fn shape_at(cells: &[CellShape], place: usize) -> CellShape
    ensures { result ≡ shape_at cells.now place }
{
    match cells.get(place) {
        Some(cell) => *cell,
        None => CellShape {
            kind: Elementary::Bool,
            bounded: false,
            range: Range { low: 0, high: 1 },
            initial: 0,
        },
    }
}

// The shape of the cell that an INPUT line names.
fn line_shape(old: &[CellShape], new: &[CellShape], line: InputLine) -> CellShape
    ensures { result ≡ shape_of_line old.now new.now line }
{
    match line {
        InputLine::Both { old: place, .. } => shape_at(old, place),
        InputLine::Old { place, .. } => shape_at(old, place),
        InputLine::New { place, .. } => shape_at(new, place),
    }
}

/// The shapes of the cells that INPUT lines name, line by line.
pub(crate) fn line_shapes(
    alloc: Global,
    old: &[CellShape],
    new: &[CellShape],
    lines: &[InputLine],
) -> Result<Vec<CellShape>, AllocError>
    ensures { IfOk result (λ all. all.items ≡ shapes_of_lines old.now new.now lines.now) }
{
    lines
        .iter()
        .map(|line| line_shape(old, new, *line))
        .collect(alloc)
}
