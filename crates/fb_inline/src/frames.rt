// The cells of calls, as scratch cells.
ghost use Rattle.std.specs.Prelude.{◌≡◌, ◌<◌, ◌^◌, ◌+◌, ◌++◌, ◌∷◌, [], length, IfOk, OnOk};
ghost use Rattle.program_tree.specs.Tree.{number};
ghost use Rattle.program_tree.specs.View.{expr_view};
ghost use Rattle.meaning.specs.Frames.{scratch_at, initial_at};
ghost use Rattle.flat_core.specs.FlatTree.{set};
ghost use Rattle.flat_core.specs.FlatView.{flats_view};
ghost use Rattle.flat_form.specs.Frames.{input_start, others_behind, other_scratch, other_starts, places_of};
ghost use Rattle.flat_charts.specs.Views.{frame_view};

use crate::puts::{new_scratch, put_number, put_set};
use flat_core::FlatStmt;
use flat_form::{range_at, type_at};
use plc_types::Value;
use program_tree::{Frame, Scratch, TypedExpr};
use std::alloc::AllocError;

fn initial_at(frame: &Frame, place: usize) -> Value
    ensures { result ≡ initial_at (frame_view frame.now) place }
{
    frame.start.get(place).copied().unwrap_or(0)
}

// One more scratch cell, of a frame's cell, behind so many cells and the scratch cells so far; its place.
fn put_cell(
    frame: &Frame,
    place: usize,
    cells: usize,
    scratch: &mut Vec<Scratch>,
) -> Result<usize, AllocError>
    requires { cells < 2 ^ 63 }
    ensures place { IfOk result (λ there. there ≡ cells + length scratch.old.items) }
    ensures scratch { OnOk result (scratch.new.items ≡ scratch.old.items ++ scratch_at (frame_view frame.now) place ∷ []) }
{
    let kind = type_at(&frame.types, place);
    let range = range_at(&frame.ranges, place);
    let cell = Scratch {
        kind: kind.kind.carrier(),
        range,
        is_subrange: kind.is_subrange,
    };
    new_scratch(cell, cells, scratch)
}

/// The scratch cell of a frame's cell, which starts with its initial value; its place.
pub fn put_start(
    frame: &Frame,
    place: usize,
    cells: usize,
    scratch: &mut Vec<Scratch>,
    out: &mut Vec<FlatStmt>,
) -> Result<usize, AllocError>
    requires { cells < 2 ^ 63 }
    ensures place { IfOk result (λ there. there ≡ cells + length scratch.old.items) }
    ensures scratch { OnOk result (scratch.new.items ≡ scratch.old.items ++ scratch_at (frame_view frame.now) place ∷ []) }
    ensures list { OnOk result (flats_view out.new.items
        ≡ flats_view out.old.items ++ set (cells + length scratch.old.items) (number (initial_at (frame_view frame.now) place)) ∷ []) }
{
    let there = put_cell(frame, place, cells, scratch)?;
    let initial = initial_at(frame, place);
    put_number(out, there, initial)?;
    Ok(there)
}

/// The scratch cell of an input, which is set to its value; its place.
pub fn put_input(
    frame: &Frame,
    place: usize,
    value: TypedExpr,
    cells: usize,
    scratch: &mut Vec<Scratch>,
    out: &mut Vec<FlatStmt>,
) -> Result<usize, AllocError>
    requires { cells < 2 ^ 63 }
    ensures place { IfOk result (λ there. there ≡ cells + length scratch.old.items) }
    ensures scratch { OnOk result (scratch.new.items ≡ scratch.old.items ++ scratch_at (frame_view frame.now) place ∷ []) }
    ensures list { OnOk result (flats_view out.new.items
        ≡ flats_view out.old.items ++ (input_start (frame_view frame.now) place (cells + length scratch.old.items) ++ set (cells + length scratch.old.items) (expr_view value) ∷ [])) }
{
    let there = put_cell(frame, place, cells, scratch)?;
    put_input_start(frame, place, there, out)?;
    put_set(out, there, value)?;
    Ok(there)
}

// One of a subrange starts with its initial value, so that a value out of range leaves this.
fn put_input_start(
    frame: &Frame,
    place: usize,
    there: usize,
    out: &mut Vec<FlatStmt>,
) -> Result<(), AllocError>
    ensures { OnOk result (flats_view out.new.items ≡ flats_view out.old.items ++ input_start (frame_view frame.now) place there) }
{
    let kind = type_at(&frame.types, place);
    if kind.is_subrange {
        let initial = initial_at(frame, place);
        put_number(out, there, initial)?;
    }
    Ok(())
}

/// The scratch cells of the variables behind the inputs, which start with their initial values; their places stand behind those of
/// the inputs.
pub fn put_others(
    frame: &Frame,
    inputs: usize,
    cells: usize,
    places: &mut Vec<usize>,
    scratch: &mut Vec<Scratch>,
    out: &mut Vec<FlatStmt>,
) -> Result<(), AllocError>
    requires cells { cells < 2 ^ 63 }
    requires inputs { inputs < 2 ^ 63 }
    ensures places { OnOk result (places.new.items ≡ places_of places.old.items (cells + length scratch.old.items) (others_behind (frame_view frame.now) inputs)) }
    ensures scratch { OnOk result (scratch.new.items
        ≡ scratch.old.items ++ other_scratch (frame_view frame.now) (2 + inputs) (others_behind (frame_view frame.now) inputs)) }
    ensures list { OnOk result (flats_view out.new.items
        ≡ flats_view out.old.items ++ other_starts (frame_view frame.now) (2 + inputs) (others_behind (frame_view frame.now) inputs) (cells + length scratch.old.items)) }
{
    let first = inputs + 2;
    for place in first..frame.types.len() {
        let there = put_start(frame, place, cells, scratch, out)?;
        places.push(there)?;
    }
    Ok(())
}
