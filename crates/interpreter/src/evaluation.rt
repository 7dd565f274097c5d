// The value of an expression, and whether its evaluation meets a fault. A clause reads two states as one, OLD's
// cells and then NEW's; a POU reads its owner's alone.
ghost use Rattle.std.specs.Prelude.{◌≡◌, ◌≤◌, ◌+◌, ◌*◌, ◌^◌, ◌||◌, ◌++◌, [], ◌∷◌, false, pos, length, slice_index_or};
ghost use Rattle.program_tree.specs.View.{expr_view, operands_view, arguments_view};
ghost use Rattle.plc_types.specs.Types.{wrap_to};
ghost use Rattle.meaning.specs.Values.{no_callees, applied, divides_by_zero, called, value_of, value_on, values_of, faults, any_faults, one_faults};
ghost use Rattle.operations.specs.Joined.{joined, all_joined};
ghost use Rattle.interpreter.specs.Scopes.{callees_here, room_here, cells_read};

use crate::answers::answer;
use crate::cells::read_of_two;
use crate::scope::{Reading, Scope};
use operations::{
    apply, apply_unary, call_of_one, call_of_three, divides_by_zero, joined, wrap_value,
};
use plc_types::{Elementary, Function, Operator, Value};
use program_tree::{Operand, TypedExpr};

/// What an expression gives.
#[derive(Clone, Copy)]
pub struct Evaluated {
    pub value: Value,
    pub fault: bool,
}

/// The value of an expression that calls no POU, over two states, one behind the other, and whether a fault is met.
pub fn evaluate(expr: &TypedExpr, first: &[Value], second: &[Value]) -> Evaluated
    ensures value { result.value ≡ value_of no_callees 0 (expr_view expr.now) (first.now ++ second.now) }
    ensures fault { result.fault ≡ faults no_callees 0 (expr_view expr.now) (first.now ++ second.now) }
{
    let scope = Scope {
        ranges: &[],
        base: 0,
        called: &[],
        below: 0,
    };
    let reading = Reading {
        first,
        second,
        scope: &scope,
    };
    evaluate_in(expr, &reading, &mut [])
}

/// The same over the cells of an owner, of a POU that may call others. Their calls have room on the stack.
#[cycle(run)]
#[inline(always)]
pub fn evaluate_over(
    expr: &TypedExpr,
    cells: &[Value],
    scope: &Scope<'_>,
    stack: &mut [Value],
) -> Evaluated
    requires known { scope.now.below ≤ length scope.now.called.now }
    requires bound { scope.now.base + (scope.now.below + 1) * 2 ^ 64 ≤ 2 ^ 128 }
    requires room { room_here scope.now ≤ length stack.old }
    ensures value { result.value ≡ value_of (callees_here scope.now) scope.now.base (expr_view expr.now) cells.now }
    ensures fault { result.fault ≡ faults (callees_here scope.now) scope.now.base (expr_view expr.now) cells.now }
    ensures room { length stack.new ≡ length stack.old }
{
    let reading = Reading {
        first: &*cells,
        second: &[],
        scope: &*scope,
    };
    evaluate_in(expr, &reading, stack)
}

/// The value of an expression over what is read, and whether a fault is met.
#[cycle(run)]
pub fn evaluate_in(expr: &TypedExpr, reading: &Reading<'_>, stack: &mut [Value]) -> Evaluated
    requires known { reading.now.scope.now.below ≤ length reading.now.scope.now.called.now }
    requires bound { reading.now.scope.now.base + (reading.now.scope.now.below + 1) * 2 ^ 64 ≤ 2 ^ 128 }
    requires room { room_here reading.now.scope.now ≤ length stack.old }
    ensures value { result.value ≡ value_of (callees_here reading.now.scope.now) reading.now.scope.now.base (expr_view expr.now) (cells_read reading.now) }
    ensures fault { result.fault ≡ faults (callees_here reading.now.scope.now) reading.now.scope.now.base (expr_view expr.now) (cells_read reading.now) }
    ensures room { length stack.new ≡ length stack.old }
{
    match expr {
        TypedExpr::Number(value) => faultless(*value),
        TypedExpr::Cell(place) => faultless(read(reading, *place)),
        TypedExpr::Unary(operator, kind, inner) => {
            let inner = evaluate_in(inner, reading, stack);
            Evaluated {
                value: apply_unary(*operator, *kind, inner.value),
                fault: inner.fault,
            }
        }
        TypedExpr::Chain(left, operands) => {
            let left = evaluate_in(left, reading, stack);
            evaluate_on(left, operands, reading, stack)
        }
        TypedExpr::CallStandard(function, kind, operands) => {
            evaluate_call(operands, *function, *kind, reading, stack)
        }
        TypedExpr::CallFunction(function, inputs) => answer(inputs, *function, reading, stack),
    }
}

// A chain from what it gives so far on.
#[cycle(run)]
fn evaluate_on(
    mut so_far: Evaluated,
    operands: &[Operand],
    reading: &Reading<'_>,
    stack: &mut [Value],
) -> Evaluated
    requires known { reading.now.scope.now.below ≤ length reading.now.scope.now.called.now }
    requires bound { reading.now.scope.now.base + (reading.now.scope.now.below + 1) * 2 ^ 64 ≤ 2 ^ 128 }
    requires room { room_here reading.now.scope.now ≤ length stack.old }
    ensures value { result.value ≡ value_on (callees_here reading.now.scope.now) reading.now.scope.now.base so_far.value (operands_view operands.now) (cells_read reading.now) }
    ensures fault { result.fault ≡ (so_far.fault || any_faults (callees_here reading.now.scope.now) reading.now.scope.now.base (operands_view operands.now) (cells_read reading.now)) }
    ensures room { length stack.new ≡ length stack.old }
{
    for operand in operands {
        let right = evaluate_in(&operand.right, reading, stack);
        so_far = join(operand.operator, operand.kind, so_far, right);
    }
    so_far
}

// A function of some operands.
#[cycle(run)]
fn evaluate_call(
    operands: &[TypedExpr],
    function: Function,
    kind: Elementary,
    reading: &Reading<'_>,
    stack: &mut [Value],
) -> Evaluated
    requires known { reading.now.scope.now.below ≤ length reading.now.scope.now.called.now }
    requires bound { reading.now.scope.now.base + (reading.now.scope.now.below + 1) * 2 ^ 64 ≤ 2 ^ 128 }
    requires room { room_here reading.now.scope.now ≤ length stack.old }
    ensures value { result.value ≡ called function kind (values_of (callees_here reading.now.scope.now) reading.now.scope.now.base (arguments_view operands.now) (cells_read reading.now)) }
    ensures fault { result.fault ≡ one_faults (callees_here reading.now.scope.now) reading.now.scope.now.base (arguments_view operands.now) (cells_read reading.now) }
    ensures room { length stack.new ≡ length stack.old }
{
    match operands {
        [only] => {
            let given = evaluate_in(only, reading, stack);
            called_with_one(function, kind, given)
        }
        [one, two, three] => {
            let one = evaluate_in(one, reading, stack);
            let two = evaluate_in(two, reading, stack);
            let three = evaluate_in(three, reading, stack);
            called_with_three(function, kind, one, two, three)
        }
        _ => {
            let whole = evaluate_joined(operands, function, reading, stack);
            wrapped(kind, whole)
        }
    }
}

// MIN or MAX of some operands.
#[cycle(run)]
fn evaluate_joined(
    operands: &[TypedExpr],
    function: Function,
    reading: &Reading<'_>,
    stack: &mut [Value],
) -> Evaluated
    requires known { reading.now.scope.now.below ≤ length reading.now.scope.now.called.now }
    requires bound { reading.now.scope.now.base + (reading.now.scope.now.below + 1) * 2 ^ 64 ≤ 2 ^ 128 }
    requires room { room_here reading.now.scope.now ≤ length stack.old }
    ensures value { result.value ≡ all_joined function (values_of (callees_here reading.now.scope.now) reading.now.scope.now.base (arguments_view operands.now) (cells_read reading.now)) }
    ensures fault { result.fault ≡ one_faults (callees_here reading.now.scope.now) reading.now.scope.now.base (arguments_view operands.now) (cells_read reading.now) }
    ensures room { length stack.new ≡ length stack.old }
{
    match operands {
        [] => faultless(0),
        [left, rest @ ..] => {
            let mut so_far = evaluate_in(left, reading, stack);
            for operand in rest {
                let right = evaluate_in(operand, reading, stack);
                so_far = join_values(function, so_far, right);
            }
            so_far
        }
    }
}

// The value of a cell, or 0 where there is none.
#[inline(always)]
fn read(reading: &Reading<'_>, place: usize) -> Value
    requires { reading.now.scope.now.base + (reading.now.scope.now.below + 1) * 2 ^ 64 ≤ 2 ^ 128 }
    ensures { result ≡ slice_index_or (cells_read reading.now) (reading.now.scope.now.base + place) (pos 0) }
{
    read_of_two(
        reading.first,
        reading.second,
        reading.scope.base + place as u128,
    )
}

#[inline(always)]
fn faultless(value: Value) -> Evaluated
    ensures value { result.value ≡ value }
    ensures fault { result.fault ≡ false }
{
    Evaluated {
        value,
        fault: false,
    }
}

// What an operator gives, from what its operands give.
#[inline(always)]
fn join(operator: Operator, kind: Elementary, left: Evaluated, right: Evaluated) -> Evaluated
    ensures value { result.value ≡ applied operator kind left.value right.value }
    ensures fault { result.fault ≡ (left.fault || right.fault || divides_by_zero operator right.value) }
{
    Evaluated {
        value: apply(operator, kind, left.value, right.value),
        fault: left.fault || right.fault || divides_by_zero(operator, right.value),
    }
}

fn join_values(function: Function, left: Evaluated, right: Evaluated) -> Evaluated
    ensures value { result.value ≡ joined function left.value right.value }
    ensures fault { result.fault ≡ (left.fault || right.fault) }
{
    Evaluated {
        value: joined(function, left.value, right.value),
        fault: left.fault || right.fault,
    }
}

fn wrapped(kind: Elementary, given: Evaluated) -> Evaluated
    ensures value { result.value ≡ wrap_to kind given.value }
    ensures fault { result.fault ≡ given.fault }
{
    Evaluated {
        value: wrap_value(kind, given.value),
        fault: given.fault,
    }
}

fn called_with_one(function: Function, kind: Elementary, given: Evaluated) -> Evaluated
    ensures value { result.value ≡ called function kind (given.value ∷ []) }
    ensures fault { result.fault ≡ given.fault }
{
    Evaluated {
        value: call_of_one(function, kind, given.value),
        fault: given.fault,
    }
}

fn called_with_three(
    function: Function,
    kind: Elementary,
    one: Evaluated,
    two: Evaluated,
    three: Evaluated,
) -> Evaluated
    ensures value { result.value ≡ called function kind (one.value ∷ two.value ∷ three.value ∷ []) }
    ensures fault { result.fault ≡ (one.fault || two.fault || three.fault) }
{
    Evaluated {
        value: call_of_three(function, kind, one.value, two.value, three.value),
        fault: one.fault || two.fault || three.fault,
    }
}
