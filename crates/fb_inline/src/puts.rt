// One more flat statement, arm or scratch cell.
ghost use Rattle.std.specs.Prelude.{◌<◌, ◌^◌, ◌≡◌, ◌+◌, ◌++◌, ◌∷◌, [], length, IfOk, OnOk};
ghost use Rattle.program_tree.specs.Tree.{number};
ghost use Rattle.program_tree.specs.View.{expr_view};
ghost use Rattle.program_tree.specs.Places.{whole_cell};
ghost use Rattle.flat_core.specs.FlatTree.{set, branch, no_flats};
ghost use Rattle.flat_core.specs.FlatView.{nested, flat_view, flats_of, flats_view, flat_arms_view};

use flat_core::{FlatArm, FlatStmt};
use flat_form::range_of;
use plc_types::{Elementary, Value};
use program_tree::{Scratch, TypedExpr};
use std::alloc::{AllocError, Global};

fn put(out: &mut Vec<FlatStmt>, flat: FlatStmt) -> Result<(), AllocError>
    ensures { OnOk result (flats_view out.new.items ≡ flats_view out.old.items ++ flat_view flat) }
{
    out.push(flat)?;
    Ok(())
}

/// One more assignment.
pub fn put_set(out: &mut Vec<FlatStmt>, place: usize, expr: TypedExpr) -> Result<(), AllocError>
    ensures { OnOk result (flats_view out.new.items ≡ flats_view out.old.items ++ set place (expr_view expr) ∷ []) }
{
    put(out, FlatStmt::Set(place, expr))
}

/// One more assignment of a number.
pub fn put_number(out: &mut Vec<FlatStmt>, place: usize, value: Value) -> Result<(), AllocError>
    ensures { OnOk result (flats_view out.new.items ≡ flats_view out.old.items ++ set place (number value) ∷ []) }
{
    put_set(out, place, TypedExpr::Number(value))
}

/// One more chain of nested choices.
pub fn put_if(
    out: &mut Vec<FlatStmt>,
    arms: Vec<FlatArm>,
    rest: Vec<FlatStmt>,
) -> Result<(), AllocError>
    ensures { OnOk result (flats_view out.new.items
        ≡ flats_view out.old.items ++ nested (flat_arms_view arms.items) (flats_view rest.items)) }
{
    put(out, FlatStmt::If(arms, rest))
}

/// One more condition with what runs before it and its statements.
pub fn put_arm(
    arms: &mut Vec<FlatArm>,
    before: Vec<FlatStmt>,
    condition: TypedExpr,
    body: Vec<FlatStmt>,
) -> Result<(), AllocError>
    ensures { OnOk result (flat_arms_view arms.new.items
        ≡ flat_arms_view arms.old.items ++ (flats_view before.items, expr_view condition, flats_view body.items) ∷ []) }
{
    arms.push(FlatArm {
        before,
        condition,
        body,
    })?;
    Ok(())
}

/// One more condition, with what runs where it is TRUE.
pub fn put_branch(
    out: &mut Vec<FlatStmt>,
    condition: TypedExpr,
    body: Vec<FlatStmt>,
    alloc: Global,
) -> Result<(), AllocError>
    ensures { OnOk result (flats_view out.new.items
        ≡ flats_view out.old.items ++ branch (expr_view condition) (flats_of (flats_view body.items)) no_flats ∷ []) }
{
    let mut arms = Vec::new(alloc);
    put_arm(&mut arms, Vec::new(alloc), condition, body)?;
    put_if(out, arms, Vec::new(alloc))
}

/// One more scratch cell, behind so many cells and the scratch cells so far; its place.
pub fn new_scratch(
    cell: Scratch,
    cells: usize,
    scratch: &mut Vec<Scratch>,
) -> Result<usize, AllocError>
    requires { cells < 2 ^ 63 }
    ensures place { IfOk result (λ place. place ≡ cells + length scratch.old.items) }
    ensures scratch { OnOk result (scratch.new.items ≡ scratch.old.items ++ cell ∷ []) }
{
    let place = cells + scratch.len();
    scratch.push(cell)?;
    Ok(place)
}

/// A scratch cell that takes each value of a type.
pub fn whole_cell(kind: Elementary) -> Scratch
    ensures { result ≡ whole_cell kind }
{
    Scratch {
        kind,
        range: range_of(kind),
        is_subrange: false,
    }
}

/// One more scratch cell, of a selector, which is set to its value; its place.
pub fn put_selector(
    kind: Elementary,
    value: TypedExpr,
    cells: usize,
    scratch: &mut Vec<Scratch>,
    out: &mut Vec<FlatStmt>,
) -> Result<usize, AllocError>
    requires { cells < 2 ^ 63 }
    ensures place { IfOk result (λ place. place ≡ cells + length scratch.old.items) }
    ensures scratch { OnOk result (scratch.new.items ≡ scratch.old.items ++ whole_cell kind ∷ []) }
    ensures list { OnOk result (flats_view out.new.items
        ≡ flats_view out.old.items ++ set (cells + length scratch.old.items) (expr_view value) ∷ []) }
{
    let place = new_scratch(whole_cell(kind), cells, scratch)?;
    put_set(out, place, value)?;
    Ok(place)
}
