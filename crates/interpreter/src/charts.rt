// One run of a chart.
ghost use Rattle.std.specs.Prelude.{◌≡◌, ◌≤◌, ◌+◌, ◌*◌, ◌^◌, ◌&&◌, false, length, if◌then◌else◌};
ghost use Rattle.program_tree.specs.Tree.{chart};
ghost use Rattle.program_tree.specs.View.{stmts_view, actions_view, transition_view, transitions_view};
ghost use Rattle.meaning.specs.Charts.{runs, holds_in, faults_in};
ghost use Rattle.meaning.specs.Effects.{on, state_of, effect_of, effect_of_all, effect_of_actions};
ghost use Rattle.meaning.specs.Flags.{may_leave, exited_with, entered_with, exited_after, entered_after, fault_after};
ghost use Rattle.meaning.specs.Room.{markings_in_all, markings_in_actions};
ghost use Rattle.interpreter.specs.Scopes.{callees_here, room_here};

use crate::cells::{add_fault, either};
use crate::evaluation::evaluate_over;
use crate::markings::{clear, enter_all, latch_all, mark, may_leave, read_before, read_now, runs};
use crate::scope::Scope;
use crate::statements::run_all;
use plc_types::Value;
use program_tree::{StepCells, TypedAction, TypedTransition};

/// Sets and resets latches, runs actions, takes transitions and writes the next marking. Four markings stand on the stack: where
/// this run starts, where the one before it did, the steps that are left, and those that are entered.
#[cycle(run)]
pub fn run_chart(
    steps: &[StepCells],
    actions: &[TypedAction],
    transitions: &[TypedTransition],
    scope: &Scope<'_>,
    cells: &mut [Value],
    stack: &mut [Value],
)
    requires known { scope.now.below ≤ length scope.now.called.now }
    requires bound { scope.now.base + (scope.now.below + 1) * 2 ^ 64 ≤ 2 ^ 128 }
    requires room { room_here scope.now + 4 * length steps.now + markings_in_actions (actions_view actions.now) ≤ length stack.old }
    ensures state { on cells.new ≡ effect_of (callees_here scope.now) scope.now.ranges.now scope.now.base (chart steps.now (actions_view actions.now) (transitions_view transitions.now)) cells.old }
    ensures room { length stack.new ≡ length stack.old }
{
    let (now, stack) = stack.split_at_mut(steps.len());
    let (before, stack) = stack.split_at_mut(steps.len());
    let (exited, stack) = stack.split_at_mut(steps.len());
    let (entered, stack) = stack.split_at_mut(steps.len());
    read_now(now, steps, scope.base, cells);
    read_before(before, steps, scope.base, cells);
    clear(exited);
    clear(entered);
    latch_all(actions, now, scope, cells);
    run_actions(actions, now, before, scope, cells, stack);
    let fault = fire_all(transitions, now, exited, entered, scope, cells, stack);
    add_fault(fault, cells);
    mark(steps, now, exited, entered, scope, cells);
}

#[cycle(run)]
fn run_actions(
    actions: &[TypedAction],
    now: &[Value],
    before: &[Value],
    scope: &Scope<'_>,
    cells: &mut [Value],
    stack: &mut [Value],
)
    requires known { scope.now.below ≤ length scope.now.called.now }
    requires bound { scope.now.base + (scope.now.below + 1) * 2 ^ 64 ≤ 2 ^ 128 }
    requires room { room_here scope.now + markings_in_actions (actions_view actions.now) ≤ length stack.old }
    ensures state { cells.new ≡ effect_of_actions (callees_here scope.now) scope.now.ranges.now scope.now.base now.now before.now (actions_view actions.now) cells.old }
    ensures room { length stack.new ≡ length stack.old }
{
    for action in actions {
        run_action(action, now, before, scope, cells, stack);
    }
}

// What ends the statements of an action ends them alone.
#[cycle(run)]
fn run_action(
    action: &TypedAction,
    now: &[Value],
    before: &[Value],
    scope: &Scope<'_>,
    cells: &mut [Value],
    stack: &mut [Value],
)
    requires known { scope.now.below ≤ length scope.now.called.now }
    requires bound { scope.now.base + (scope.now.below + 1) * 2 ^ 64 ≤ 2 ^ 128 }
    requires room { room_here scope.now + markings_in_all (stmts_view action.now.body.items) ≤ length stack.old }
    ensures state { cells.new ≡ (if runs scope.now.base now.now before.now action.now.latch action.now.associations.items cells.old
        then state_of (effect_of_all (callees_here scope.now) scope.now.ranges.now scope.now.base (stmts_view action.now.body.items) cells.old) else cells.old) }
    ensures room { length stack.new ≡ length stack.old }
{
    if runs(action, now, before, scope.base, cells) {
        run_all(&action.body, scope, cells, stack);
    }
}

// Takes the transitions in the order in which they fire, and notes the steps that are left and entered; whether a condition meets
// a fault.
#[cycle(run)]
fn fire_all(
    transitions: &[TypedTransition],
    now: &[Value],
    exited: &mut [Value],
    entered: &mut [Value],
    scope: &Scope<'_>,
    cells: &[Value],
    stack: &mut [Value],
) -> bool
    requires known { scope.now.below ≤ length scope.now.called.now }
    requires bound { scope.now.base + (scope.now.below + 1) * 2 ^ 64 ≤ 2 ^ 128 }
    requires room { room_here scope.now ≤ length stack.old }
    ensures exited { exited.new ≡ exited_after now.now (holds_in (callees_here scope.now) scope.now.base cells.now) (transitions_view transitions.now) exited.old }
    ensures entered { entered.new ≡ entered_after now.now (holds_in (callees_here scope.now) scope.now.base cells.now) (transitions_view transitions.now) exited.old entered.old }
    ensures fault { result ≡ fault_after now.now (holds_in (callees_here scope.now) scope.now.base cells.now) (faults_in (callees_here scope.now) scope.now.base cells.now) (transitions_view transitions.now) exited.old false }
    ensures room { length stack.new ≡ length stack.old }
{
    let mut fault = false;
    for transition in transitions {
        let failed = fire(transition, now, exited, entered, scope, cells, stack);
        fault = either(fault, failed);
    }
    fault
}

#[cycle(run)]
fn fire(
    transition: &TypedTransition,
    now: &[Value],
    exited: &mut [Value],
    entered: &mut [Value],
    scope: &Scope<'_>,
    cells: &[Value],
    stack: &mut [Value],
) -> bool
    requires known { scope.now.below ≤ length scope.now.called.now }
    requires bound { scope.now.base + (scope.now.below + 1) * 2 ^ 64 ≤ 2 ^ 128 }
    requires room { room_here scope.now ≤ length stack.old }
    ensures exited { exited.new ≡ exited_with now.now (holds_in (callees_here scope.now) scope.now.base cells.now) (transition_view transition.now) exited.old }
    ensures entered { entered.new ≡ entered_with now.now (holds_in (callees_here scope.now) scope.now.base cells.now) (transition_view transition.now) exited.old entered.old }
    ensures fault { result ≡ (may_leave now.now exited.old transition.now.from.items && faults_in (callees_here scope.now) scope.now.base cells.now (transition_view transition.now)) }
    ensures room { length stack.new ≡ length stack.old }
{
    if !may_leave(&transition.from, now, exited) {
        return false;
    }
    let given = evaluate_over(&transition.condition, cells, scope, stack);
    if given.value == 1 {
        enter_all(exited, &transition.from);
        enter_all(entered, &transition.to);
    }
    given.fault
}
