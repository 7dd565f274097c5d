// What a FUNCTION answers.
ghost use Rattle.std.specs.Prelude.{◌≡◌, ◌≤◌, ◌<◌, ◌+◌, ◌*◌, ◌^◌, ◌||◌, pos, length, take};
ghost use Rattle.program_tree.specs.View.{arguments_view};
ghost use Rattle.meaning.specs.Values.{values_of, one_faults, fault_in, answer_in};
ghost use Rattle.meaning.specs.Calls.{given};
ghost use Rattle.interpreter.specs.Scopes.{callees_here, room_here, cells_read};

use crate::cells::{either, read, store};
use crate::evaluation::{Evaluated, evaluate_in};
use crate::scope::{Reading, Scope};
use crate::statements::run_all;
use plc_types::{Range, Value};
use program_tree::{Called, TypedExpr};

/// What a FUNCTION answers, by its number, and whether an input or its run meets a fault. What is no FUNCTION answers 0.
#[cycle(run)]
pub fn answer(
    inputs: &[TypedExpr],
    function: usize,
    reading: &Reading<'_>,
    stack: &mut [Value],
) -> Evaluated
    requires known { reading.now.scope.now.below ≤ length reading.now.scope.now.called.now }
    requires bound { reading.now.scope.now.base + (reading.now.scope.now.below + 1) * 2 ^ 64 ≤ 2 ^ 128 }
    requires room { room_here reading.now.scope.now ≤ length stack.old }
    ensures value { result.value ≡ answer_in ((callees_here reading.now.scope.now).ends function (values_of (callees_here reading.now.scope.now) reading.now.scope.now.base (arguments_view inputs.now) (cells_read reading.now))) }
    ensures fault { result.fault ≡ (one_faults (callees_here reading.now.scope.now) reading.now.scope.now.base (arguments_view inputs.now) (cells_read reading.now) || fault_in ((callees_here reading.now.scope.now).ends function (values_of (callees_here reading.now.scope.now) reading.now.scope.now.base (arguments_view inputs.now) (cells_read reading.now)))) }
    ensures room { length stack.new ≡ length stack.old }
{
    if function < reading.scope.below {
        let callee = &reading.scope.called[function];
        match callee {
            Called::Function(frame, body) => {
                let ranges = frame.ranges.as_slice();
                let start = frame.start.as_slice();
                let fault = fill(inputs, 2, ranges, start, reading, stack);
                let (own, rest) = stack.split_at_mut(start.len());
                let scope = Scope {
                    ranges,
                    base: 0,
                    called: reading.scope.called,
                    below: function,
                };
                run_all(body, &scope, own, rest);
                ended(own, fault)
            }
            Called::Block(_) => unanswered(inputs, reading, stack),
        }
    } else {
        unanswered(inputs, reading, stack)
    }
}

// The inputs of what is no FUNCTION are evaluated, too.
#[cycle(run)]
fn unanswered(inputs: &[TypedExpr], reading: &Reading<'_>, stack: &mut [Value]) -> Evaluated
    requires known { reading.now.scope.now.below ≤ length reading.now.scope.now.called.now }
    requires bound { reading.now.scope.now.base + (reading.now.scope.now.below + 1) * 2 ^ 64 ≤ 2 ^ 128 }
    requires room { room_here reading.now.scope.now ≤ length stack.old }
    ensures value { result.value ≡ pos 0 }
    ensures fault { result.fault ≡ one_faults (callees_here reading.now.scope.now) reading.now.scope.now.base (arguments_view inputs.now) (cells_read reading.now) }
    ensures room { length stack.new ≡ length stack.old }
{
    let fault = fill(inputs, 2, &[], &[], reading, stack);
    Evaluated { value: 0, fault }
}

// Puts the cells of a FUNCTION, as they begin, at the front of the stack, with its inputs from a place on assigned; whether an
// input meets a fault. All are evaluated before the first is assigned, as a later one may call the same FUNCTION.
#[cycle(run)]
fn fill(
    inputs: &[TypedExpr],
    place: u128,
    ranges: &[Range],
    start: &[Value],
    reading: &Reading<'_>,
    stack: &mut [Value],
) -> bool
    requires known { reading.now.scope.now.below ≤ length reading.now.scope.now.called.now }
    requires bound { reading.now.scope.now.base + (reading.now.scope.now.below + 1) * 2 ^ 64 ≤ 2 ^ 128 }
    requires room { room_here reading.now.scope.now ≤ length stack.old }
    requires cells { length start.now ≤ length stack.old }
    requires behind_fault { 0 < place }
    requires few { place + length inputs.now < 2 ^ 128 }
    ensures state { take (length start.now) stack.new ≡ given ranges.now place (values_of (callees_here reading.now.scope.now) reading.now.scope.now.base (arguments_view inputs.now) (cells_read reading.now)) start.now }
    ensures fault { result ≡ one_faults (callees_here reading.now.scope.now) reading.now.scope.now.base (arguments_view inputs.now) (cells_read reading.now) }
    ensures room { length stack.new ≡ length stack.old }
{
    match inputs.split_first() {
        None => {
            stack[..start.len()].copy_from_slice(start);
            false
        }
        Some((first, rest)) => {
            let first = evaluate_in(first, reading, stack);
            let fault = fill(rest, place + 1, ranges, start, reading, stack);
            store(ranges, place, first.value, &mut stack[..start.len()]);
            either(first.fault, fault)
        }
    }
}

// What a FUNCTION gives that ended in this state.
fn ended(own: &[Value], fault: bool) -> Evaluated
    ensures value { result.value ≡ answer_in own.now }
    ensures fault { result.fault ≡ (fault || fault_in own.now) }
{
    let failed = read(own, 0) == 1;
    Evaluated {
        value: read(own, 1),
        fault: either(fault, failed),
    }
}
