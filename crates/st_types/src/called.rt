// The POUs that are reached and may be called, typed. A FUNCTION that never runs keeps only the cells that its callers name.
ghost use Rattle.std.specs.Prelude.{◌≡◌, false, Some, map, IfOk, IfErr, OnOk};
ghost use Rattle.call_order.specs.Marks.{is_marked};
ghost use Rattle.source_tree.specs.SyntaxView.{pou_view};
ghost use Rattle.program_tree.specs.View.{cells_view, stmts_view, called_view, all_called_view};
ghost use Rattle.naming.specs.FileScope.{pou_at};
ghost use Rattle.decl_types.specs.Bodies.{file_in};
ghost use Rattle.typing.specs.Members.{called_order};
ghost use Rattle.typing.specs.TypedPrograms.{type_of_cell, pou_body, called_of, called_by};
ghost use Rattle.running_pous.specs.Bodies.{bodies_view, running_body, bodies_from};
ghost use Rattle.running_pous.specs.Running.{may_run};
ghost use Rattle.running_pous.specs.Stated.{unused_of, stated_if, stated_from, stated_by};
ghost use Rattle.rules.specs.Faults.{IfRefused};
ghost use Rattle.st_types.specs.LargePous.{any_large, IsRefusedIf};

use crate::cells::{cells_behind_fault, front_cells};
use crate::running::{Running, running_bodies};
use decl_types::pou_at;
use plc_types::{Range, Value};
use pou_cells::PlacedPous;
use program_tree::{Called, Cell, CellType, Frame, TypedStmt};
use rules::Fault;
use running_pous::is_marked;
use source_tree::{Pou, PouType};
use std::alloc::{AllocError, Global};

fn types_of(alloc: Global, cells: &[Cell]) -> Result<Vec<CellType>, AllocError>
    ensures { IfOk result (λ list. list.items ≡ map type_of_cell (cells_view cells.now)) }
{
    let mut list = Vec::new(alloc);
    for cell in cells {
        list.push(CellType {
            kind: cell.kind,
            is_subrange: cell.is_subrange,
        })?;
    }
    Ok(list)
}

fn ranges_of(alloc: Global, cells: &[Cell]) -> Result<Vec<Range>, AllocError>
    ensures { IfOk result (λ list. list.items ≡ map (λ c. c.range) (cells_view cells.now)) }
{
    let mut list = Vec::new(alloc);
    for cell in cells {
        list.push(cell.range)?;
    }
    Ok(list)
}

fn starts_of(alloc: Global, cells: &[Cell]) -> Result<Vec<Value>, AllocError>
    ensures { IfOk result (λ list. list.items ≡ map (λ c. c.initial) (cells_view cells.now)) }
{
    let mut list = Vec::new(alloc);
    for cell in cells {
        list.push(cell.initial)?;
    }
    Ok(list)
}

// The cells of a FUNCTION, without their paths.
fn frame_of(alloc: Global, cells: &[Cell]) -> Result<Frame, AllocError>
    ensures types { IfOk result (λ frame. frame.types.items ≡ map type_of_cell (cells_view cells.now)) }
    ensures ranges { IfOk result (λ frame. frame.ranges.items ≡ map (λ c. c.range) (cells_view cells.now)) }
    ensures start { IfOk result (λ frame. frame.start.items ≡ map (λ c. c.initial) (cells_view cells.now)) }
{
    Ok(Frame {
        types: types_of(alloc, cells)?,
        ranges: ranges_of(alloc, cells)?,
        start: starts_of(alloc, cells)?,
    })
}

// A POU that runs, by its number and with this body.
fn called_of(
    alloc: Global,
    placed: &PlacedPous<'_>,
    number: usize,
    pou: &Pou,
    body: Vec<TypedStmt>,
) -> Result<Called, AllocError>
    requires there { pou_at (file_in placed.now.pous.domains) number ≡ Some (pou_view pou.now) }
    requires body { stmts_view body.items ≡ pou_body (file_in placed.now.pous.domains) number (pou_view pou.now) }
    ensures { IfOk result (λ called. called_view called ≡ called_of (file_in placed.now.pous.domains) number (pou_view pou.now).pou_type (pou_view pou.now)) }
{
    match pou.pou_type {
        PouType::Function(_) => {
            let cells = cells_behind_fault(alloc, placed, None, true, number)?;
            let frame = frame_of(alloc, &cells)?;
            Ok(Called::Function(frame, body))
        }
        PouType::FunctionBlock | PouType::Program => Ok(Called::Block(body)),
    }
}

// A POU that never runs, by its number.
fn unused_of(
    alloc: Global,
    placed: &PlacedPous<'_>,
    number: usize,
    pou: &Pou,
) -> Result<Called, AllocError>
    requires { pou_at (file_in placed.now.pous.domains) number ≡ Some (pou_view pou.now) }
    ensures { IfOk result (λ called. called_view called ≡ unused_of (file_in placed.now.pous.domains) number (pou_view pou.now).pou_type (pou_view pou.now)) }
{
    match pou.pou_type {
        PouType::Function(_) => {
            let cells = front_cells(alloc, placed, number)?;
            let frame = frame_of(alloc, &cells)?;
            Ok(Called::Function(frame, Vec::new(alloc)))
        }
        PouType::FunctionBlock | PouType::Program => Ok(Called::Block(Vec::new(alloc))),
    }
}

// The POU of a number, which runs or not, and has this body where it does.
fn stated_if(
    alloc: Global,
    placed: &PlacedPous<'_>,
    number: usize,
    runs: bool,
    body: Vec<TypedStmt>,
) -> Result<Called, AllocError>
    requires { stmts_view body.items ≡ running_body (file_in placed.now.pous.domains) number runs }
    ensures { IfOk result (λ called. called_view called ≡ stated_if (file_in placed.now.pous.domains) number runs) }
{
    match pou_at(placed.pous.domains.types.names, number) {
        None => Ok(Called::Block(Vec::new(alloc))),
        Some(pou) if runs => called_of(alloc, placed, number, pou, body),
        Some(pou) => unused_of(alloc, placed, number, pou),
    }
}

// The POUs that may be called, of which those run that are marked and have these bodies.
fn stated_from(
    alloc: Global,
    placed: &PlacedPous<'_>,
    marks: &[bool],
    bodies: Vec<Vec<TypedStmt>>,
) -> Result<Vec<Called>, AllocError>
    requires { bodies_view bodies.items ≡ bodies_from (file_in placed.now.pous.domains) (is_marked marks.now) 0 placed.now.pous.called.items }
    ensures { IfOk result (λ list. all_called_view list.items ≡ stated_from (file_in placed.now.pous.domains) (is_marked marks.now) 0 placed.now.pous.called.items) }
{
    let mut left = bodies;
    left.reverse();
    let mut list = Vec::new(alloc);
    for (place, number) in placed.pous.called.iter().enumerate() {
        let Some(body) = left.pop() else {
            unreachable!()
        };
        let runs = is_marked(marks, place);
        let called = stated_if(alloc, placed, *number, runs, body)?;
        list.push(called)?;
    }
    Ok(list)
}

/// The POUs that are reached and may be called, each of which calls only those before it, where the PROGRAM has this body. Of these
/// one that never runs has no statements, and a FUNCTION that never runs has of its cells those alone that its callers name. Where one that
/// may run is large, the answer is M5.
pub fn stated_by(
    alloc: Global,
    placed: &PlacedPous<'_>,
    body: &[TypedStmt],
) -> Result<Vec<Called>, Fault>
    ensures list { IfOk result (λ list. all_called_view list.items ≡ stated_by (file_in placed.now.pous.domains) (may_run (called_by (file_in placed.now.pous.domains)) (stmts_view body.now))) }
    ensures few { OnOk result (any_large (file_in placed.now.pous.domains) (may_run (called_by (file_in placed.now.pous.domains)) (stmts_view body.now)) 0 (called_order (file_in placed.now.pous.domains)) ≡ false) }
    ensures refused { IfErr result (IfRefused (IsRefusedIf (any_large (file_in placed.now.pous.domains) (may_run (called_by (file_in placed.now.pous.domains)) (stmts_view body.now)) 0 (called_order (file_in placed.now.pous.domains))))) }
{
    let running = running_bodies(alloc, placed, body)?;
    let Running { runs, bodies } = running;
    let list = stated_from(alloc, placed, &runs, bodies)?;
    Ok(list)
}
