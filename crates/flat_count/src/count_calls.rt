// How many flat statements the calls of expressions become.
ghost use Rattle.std.specs.Prelude.{◌≡◌, ◌+◌, ◌*◌, ◌≤◌};
ghost use Rattle.program_tree.specs.Tree.{call_function};
ghost use Rattle.program_tree.specs.View.{expr_view, operands_view, arguments_view, called_view, all_called_view};
ghost use Rattle.meaning.specs.Frames.{frame_of, frames_of};
ghost use Rattle.flat_form.specs.Frames.{others_behind};
ghost use Rattle.flat_count.specs.Counts.{count_in, count_in_operands, count_in_all, count_in_inputs, count_of_start, counting_here, capped};

use crate::counts::Counts;
use crate::sums::{capped, count_at, sum};
use flat_form::type_at;
use program_tree::{Called, Operand, TypedExpr};

/// How many flat statements the calls of an expression become.
#[cycle(count_calls)]
pub fn count_calls(expr: &TypedExpr, counts: &Counts<'_>) -> usize
    ensures { result ≡ capped (count_in (counting_here counts.now) (expr_view expr.now)) }
{
    match expr {
        TypedExpr::Number(_) => 0,
        TypedExpr::Cell(_) => 0,
        TypedExpr::Unary(_, _, inner) => count_calls(inner, counts),
        TypedExpr::Chain(first, operands) => {
            sum(count_calls(first, counts), count_operands(operands, counts))
        }
        TypedExpr::CallStandard(_, _, operands) => count_exprs(operands, counts),
        TypedExpr::CallFunction(function, inputs) => count_answer(inputs, *function, counts),
    }
}

#[cycle(count_calls)]
fn count_operands(operands: &[Operand], counts: &Counts<'_>) -> usize
    ensures { result ≡ capped (count_in_operands (counting_here counts.now) (operands_view operands.now)) }
{
    let mut total = 0;
    for operand in operands {
        total = sum(total, count_calls(&operand.right, counts));
    }
    total
}

#[cycle(count_calls)]
fn count_exprs(list: &[TypedExpr], counts: &Counts<'_>) -> usize
    ensures { result ≡ capped (count_in_all (counting_here counts.now) (arguments_view list.now)) }
{
    let mut total = 0;
    for expr in list {
        total = sum(total, count_calls(expr, counts));
    }
    total
}

// A call.
#[cycle(count_calls)]
fn count_answer(inputs: &[TypedExpr], function: usize, counts: &Counts<'_>) -> usize
    ensures { result ≡ capped (count_in (counting_here counts.now) (call_function function (arguments_view inputs.now))) }
{
    let before = count_inputs(inputs, function, counts);
    let others = count_others(counts.called, function, inputs.len());
    let body = sum(1, count_at(counts.bodies, function));
    sum(before, sum(others, body))
}

// The inputs of a call.
#[cycle(count_calls)]
fn count_inputs(inputs: &[TypedExpr], function: usize, counts: &Counts<'_>) -> usize
    ensures { result ≡ capped (count_in_inputs (counting_here counts.now) (frames_of (all_called_view counts.now.called.now) function) 2 (arguments_view inputs.now)) }
{
    let mut total = 0;
    let mut place = 2;
    for input in inputs {
        let value = count_calls(input, counts);
        let own = count_start(counts.called, function, place) + 1;
        total = sum(total, sum(value, own));
        place += 1;
    }
    total
}

fn count_start(called: &[Called], function: usize, place: usize) -> usize
    ensures count { result ≡ count_of_start (frames_of (all_called_view called.now) function) place }
    ensures fits { result ≤ 1 }
{
    if function < called.len() {
        let callee = &called[function];
        return count_start_of(callee, place);
    }
    0
}

fn count_start_of(callee: &Called, place: usize) -> usize
    ensures count { result ≡ count_of_start (frame_of (called_view callee.now)) place }
    ensures fits { result ≤ 1 }
{
    if let Called::Function(frame, _) = callee {
        if type_at(&frame.types, place).is_subrange {
            return 1;
        }
    }
    0
}

// The variables behind so many inputs.
fn count_others(called: &[Called], function: usize, inputs: usize) -> usize
    ensures count { result ≡ capped (others_behind (frames_of (all_called_view called.now) function) inputs) }
    ensures fits { result ≤ 200001 }
{
    if function < called.len() {
        let callee = &called[function];
        return count_others_of(callee, inputs);
    }
    0
}

fn count_others_of(callee: &Called, inputs: usize) -> usize
    ensures count { result ≡ capped (others_behind (frame_of (called_view callee.now)) inputs) }
    ensures fits { result ≤ 200001 }
{
    match callee {
        Called::Block(_) => 0,
        Called::Function(frame, _) => {
            capped(frame.types.len().saturating_sub(2).saturating_sub(inputs))
        }
    }
}
