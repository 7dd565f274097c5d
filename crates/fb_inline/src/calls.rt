// Expressions, with the statements that their calls become.
ghost use Rattle.std.specs.Prelude.{◌≡◌, ◌+◌, ◌++◌, length, IfOk, OnOk};
ghost use Rattle.program_tree.specs.Tree.{call_function};
ghost use Rattle.program_tree.specs.View.{expr_view, operands_view, arguments_view};
ghost use Rattle.flat_core.specs.FlatView.{flats_view};
ghost use Rattle.flat_charts.specs.Views.{frame_view};
ghost use Rattle.flat_charts.specs.Views.{owner_view};
ghost use Rattle.flat_form.specs.Calls.{scratch_in, operand_scratch, all_scratch, input_scratch, moved, moved_operands, all_moved, before, operands_before, all_before, inputs_before, input_places};
ghost use Rattle.flat_charts.specs.Views.{bodies_here, IsKnown};
ghost use Rattle.typed_programs.specs.Expressions.{AreInputs};
ghost use Rattle.fb_inline.specs.TypedScopes.{IsTypedOver, HasType, AreOperands, HaveTypes};

use crate::frames::{put_input, put_others, put_start};
use crate::leaving::NO_FLAGS;
use crate::statements::flatten_all;
use flat_charts::{FlatScope, Owner, cell_at, place_at};
use flat_core::FlatStmt;
use program_tree::{Called, Frame, Operand, Scratch, TypedExpr};
use std::alloc::{AllocError, Global};

/// Appends the statements that the calls of an expression become; the expression that is left.
#[cycle(flatten)]
pub fn flatten_expr(
    expr: &TypedExpr,
    scope: &FlatScope<'_, '_>,
    scratch: &mut Vec<Scratch>,
    out: &mut Vec<FlatStmt>,
    alloc: Global,
) -> Result<TypedExpr, AllocError>
    requires known { IsKnown scope.now }
    requires typed { IsTypedOver scope.now (λ pous b. HasType pous b (expr_view expr.now)) }
    ensures value { IfOk result (λ e. expr_view e
        ≡ moved (bodies_here scope.now) (owner_view scope.now.owner) scope.now.base (expr_view expr.now) (scope.now.cells + length scratch.old.items)) }
    ensures list { OnOk result (flats_view out.new.items
        ≡ flats_view out.old.items ++ before (bodies_here scope.now) (owner_view scope.now.owner) scope.now.base (expr_view expr.now) (scope.now.cells + length scratch.old.items)) }
    ensures scratch { OnOk result (scratch.new.items ≡ scratch.old.items ++ scratch_in (bodies_here scope.now) (expr_view expr.now)) }
{
    match expr {
        TypedExpr::Number(value) => Ok(TypedExpr::Number(*value)),
        TypedExpr::Cell(place) => Ok(TypedExpr::Cell(place_at(scope, *place))),
        TypedExpr::Unary(operator, kind, inner) => {
            let inner = flatten_expr(inner, scope, scratch, out, alloc)?;
            Ok(TypedExpr::Unary(*operator, *kind, Box::new(alloc, inner)?))
        }
        TypedExpr::Chain(first, operands) => {
            let first = flatten_expr(first, scope, scratch, out, alloc)?;
            let operands = flatten_operands(operands, scope, scratch, out, alloc)?;
            Ok(TypedExpr::Chain(Box::new(alloc, first)?, operands))
        }
        TypedExpr::CallStandard(function, kind, operands) => {
            let operands = flatten_exprs(operands, scope, scratch, out, alloc)?;
            Ok(TypedExpr::CallStandard(*function, *kind, operands))
        }
        TypedExpr::CallFunction(function, inputs) => {
            flatten_answer(inputs, *function, scope, scratch, out, alloc)
        }
    }
}

#[cycle(flatten)]
fn flatten_operands(
    operands: &[Operand],
    scope: &FlatScope<'_, '_>,
    scratch: &mut Vec<Scratch>,
    out: &mut Vec<FlatStmt>,
    alloc: Global,
) -> Result<Vec<Operand>, AllocError>
    requires known { IsKnown scope.now }
    requires typed { IsTypedOver scope.now (λ pous b. AreOperands pous b (operands_view operands.now)) }
    ensures value { IfOk result (λ os. operands_view os.items
        ≡ moved_operands (bodies_here scope.now) (owner_view scope.now.owner) scope.now.base (operands_view operands.now) (scope.now.cells + length scratch.old.items)) }
    ensures list { OnOk result (flats_view out.new.items
        ≡ flats_view out.old.items ++ operands_before (bodies_here scope.now) (owner_view scope.now.owner) scope.now.base (operands_view operands.now) (scope.now.cells + length scratch.old.items)) }
    ensures scratch { OnOk result (scratch.new.items ≡ scratch.old.items ++ operand_scratch (bodies_here scope.now) (operands_view operands.now)) }
{
    let mut there = Vec::new(alloc);
    for operand in operands {
        let right = flatten_expr(&operand.right, scope, scratch, out, alloc)?;
        there.push(Operand {
            operator: operand.operator,
            kind: operand.kind,
            right,
        })?;
    }
    Ok(there)
}

#[cycle(flatten)]
fn flatten_exprs(
    list: &[TypedExpr],
    scope: &FlatScope<'_, '_>,
    scratch: &mut Vec<Scratch>,
    out: &mut Vec<FlatStmt>,
    alloc: Global,
) -> Result<Vec<TypedExpr>, AllocError>
    requires known { IsKnown scope.now }
    requires typed { IsTypedOver scope.now (λ pous b. HaveTypes pous b (arguments_view list.now)) }
    ensures value { IfOk result (λ es. arguments_view es.items
        ≡ all_moved (bodies_here scope.now) (owner_view scope.now.owner) scope.now.base (arguments_view list.now) (scope.now.cells + length scratch.old.items)) }
    ensures list { OnOk result (flats_view out.new.items
        ≡ flats_view out.old.items ++ all_before (bodies_here scope.now) (owner_view scope.now.owner) scope.now.base (arguments_view list.now) (scope.now.cells + length scratch.old.items)) }
    ensures scratch { OnOk result (scratch.new.items ≡ scratch.old.items ++ all_scratch (bodies_here scope.now) (arguments_view list.now)) }
{
    let mut there = Vec::new(alloc);
    for expr in list {
        let expr = flatten_expr(expr, scope, scratch, out, alloc)?;
        there.push(expr)?;
    }
    Ok(there)
}

// A call of a FUNCTION; a typed call calls nothing else.
#[cycle(flatten)]
fn flatten_answer(
    inputs: &[TypedExpr],
    function: usize,
    scope: &FlatScope<'_, '_>,
    scratch: &mut Vec<Scratch>,
    out: &mut Vec<FlatStmt>,
    alloc: Global,
) -> Result<TypedExpr, AllocError>
    requires known { IsKnown scope.now }
    requires typed { IsTypedOver scope.now (λ pous b. HasType pous b (call_function function (arguments_view inputs.now))) }
    ensures value { IfOk result (λ e. expr_view e
        ≡ moved (bodies_here scope.now) (owner_view scope.now.owner) scope.now.base (call_function function (arguments_view inputs.now)) (scope.now.cells + length scratch.old.items)) }
    ensures list { OnOk result (flats_view out.new.items
        ≡ flats_view out.old.items ++ before (bodies_here scope.now) (owner_view scope.now.owner) scope.now.base (call_function function (arguments_view inputs.now)) (scope.now.cells + length scratch.old.items)) }
    ensures scratch { OnOk result (scratch.new.items ≡ scratch.old.items ++ scratch_in (bodies_here scope.now) (call_function function (arguments_view inputs.now))) }
{
    let callee = &scope.called[function];
    let Called::Function(frame, body) = callee else {
        unreachable!()
    };
    let mut places = flatten_inputs(inputs, frame, scope, scratch, out, alloc)?;
    put_others(frame, inputs.len(), scope.cells, &mut places, scratch, out)?;
    let answer = put_start(frame, 1, scope.cells, scratch, out)?;
    let call = FlatScope {
        cells: scope.cells,
        owner: Owner::Call(answer, &places),
        base: 0,
        called: scope.called,
        idle: scope.idle,
        below: function,
    };
    flatten_all(body, &call, NO_FLAGS, scratch, out, alloc)?;
    Ok(cell_at(answer))
}

// The inputs of a call; the places of their scratch cells.
#[cycle(flatten)]
fn flatten_inputs(
    inputs: &[TypedExpr],
    frame: &Frame,
    scope: &FlatScope<'_, '_>,
    scratch: &mut Vec<Scratch>,
    out: &mut Vec<FlatStmt>,
    alloc: Global,
) -> Result<Vec<usize>, AllocError>
    requires known { IsKnown scope.now }
    requires typed { IsTypedOver scope.now (λ pous b. AreInputs pous b (frame_view frame.now) 2 (arguments_view inputs.now)) }
    ensures places { IfOk result (λ places. places.items ≡ input_places (bodies_here scope.now) (arguments_view inputs.now) (scope.now.cells + length scratch.old.items)) }
    ensures list { OnOk result (flats_view out.new.items
        ≡ flats_view out.old.items
        ++ inputs_before (bodies_here scope.now) (owner_view scope.now.owner) scope.now.base (frame_view frame.now) 2 (arguments_view inputs.now) (scope.now.cells + length scratch.old.items)) }
    ensures scratch { OnOk result (scratch.new.items ≡ scratch.old.items ++ input_scratch (bodies_here scope.now) (frame_view frame.now) 2 (arguments_view inputs.now)) }
{
    let mut places = Vec::new(alloc);
    let mut place = 2;
    for input in inputs {
        let value = flatten_expr(input, scope, scratch, out, alloc)?;
        let there = put_input(frame, place, value, scope.cells, scratch, out)?;
        places.push(there)?;
        place += 1;
    }
    Ok(places)
}
