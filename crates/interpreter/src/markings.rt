// Markings of a chart: a number for each step, 1 where it is active, else 0.
ghost use Rattle.std.specs.Prelude.{◌≡◌, ◌≤◌, ◌+◌, ◌^◌, ◌||◌, length};
ghost use Rattle.std.specs.List.{list_any};
ghost use Rattle.program_tree.specs.View.{actions_view};
ghost use Rattle.meaning.specs.Values.{number_of};
ghost use Rattle.meaning.specs.Charts.{is_on, marking_now, marking_before, is_asked_for, sets, resets, asks, latch_is_on, next_latch, runs};
ghost use Rattle.meaning.specs.Effects.{latched, all_latched, marked};
ghost use Rattle.meaning.specs.Flags.{no_steps, with_steps, may_leave, is_next_from};

use crate::cells::{put, read, store};
use crate::scope::Scope;
use plc_types::Value;
use program_tree::{Association, Qualifier, StepCells, TypedAction};

/// Whether a step is active in a marking.
fn is_on(marking: &[Value], step: usize) -> bool
    ensures { result ≡ is_on marking.now step }
{
    read(marking, step as u128) == 1
}

/// Reads which steps are active.
pub fn read_now(marking: &mut [Value], steps: &[StepCells], base: u128, cells: &[Value])
    requires long { length marking.old ≡ length steps.now }
    requires bound { base + 2 ^ 64 ≤ 2 ^ 128 }
    ensures { marking.new ≡ marking_now base steps.now cells.now }
{
    for i in 0..steps.len() {
        marking[i] = read(cells, base + steps[i].active as u128);
    }
}

/// Reads which steps were active.
pub fn read_before(marking: &mut [Value], steps: &[StepCells], base: u128, cells: &[Value])
    requires long { length marking.old ≡ length steps.now }
    requires bound { base + 2 ^ 64 ≤ 2 ^ 128 }
    ensures { marking.new ≡ marking_before base steps.now cells.now }
{
    for i in 0..steps.len() {
        marking[i] = read(cells, base + steps[i].before as u128);
    }
}

/// Makes no step active.
pub fn clear(marking: &mut [Value])
    ensures { marking.new ≡ no_steps marking.old }
{
    for i in 0..marking.len() {
        marking[i] = 0;
    }
}

/// Makes these steps active.
pub fn enter_all(marking: &mut [Value], steps: &[usize])
    ensures { marking.new ≡ with_steps steps.now marking.old }
{
    for step in steps {
        put(marking, *step as u128, 1);
    }
}

/// Whether all these steps are active, and none is left.
pub fn may_leave(steps: &[usize], now: &[Value], exited: &[Value]) -> bool
    ensures { result ≡ may_leave now.now exited.now steps.now }
{
    for step in steps {
        if !is_on(now, *step) || is_on(exited, *step) {
            return false;
        }
    }
    true
}

fn sets(now: &[Value], association: Association) -> bool
    ensures { result ≡ sets now.now association }
{
    matches!(association.qualifier, Qualifier::Set) && is_on(now, association.step)
}

fn resets(now: &[Value], association: Association) -> bool
    ensures { result ≡ resets now.now association }
{
    matches!(association.qualifier, Qualifier::Reset) && is_on(now, association.step)
}

fn asks(now: &[Value], before: &[Value], association: Association) -> bool
    ensures { result ≡ asks now.now before.now association }
{
    is_asked_for(
        association.qualifier,
        is_on(now, association.step),
        is_on(before, association.step),
    )
}

fn is_asked_for(qualifier: Qualifier, now: bool, before: bool) -> bool
    ensures { result ≡ is_asked_for qualifier now before }
{
    match qualifier {
        Qualifier::NonStored => now,
        Qualifier::Pulse => now && !before,
        Qualifier::FallingPulse => before && !now,
        Qualifier::Set | Qualifier::Reset => false,
    }
}

fn any_sets(associations: &[Association], now: &[Value]) -> bool
    ensures { result ≡ list_any (sets now.now) associations.now }
{
    for association in associations {
        if sets(now, *association) {
            return true;
        }
    }
    false
}

fn any_resets(associations: &[Association], now: &[Value]) -> bool
    ensures { result ≡ list_any (resets now.now) associations.now }
{
    for association in associations {
        if resets(now, *association) {
            return true;
        }
    }
    false
}

fn any_asks(associations: &[Association], now: &[Value], before: &[Value]) -> bool
    ensures { result ≡ list_any (asks now.now before.now) associations.now }
{
    for association in associations {
        if asks(now, before, *association) {
            return true;
        }
    }
    false
}

fn latch_is_on(latch: Option<usize>, base: u128, cells: &[Value]) -> bool
    requires { base + 2 ^ 64 ≤ 2 ^ 128 }
    ensures { result ≡ latch_is_on base latch cells.now }
{
    match latch {
        None => false,
        Some(place) => read(cells, base + place as u128) == 1,
    }
}

/// Whether an action runs.
pub fn runs(
    action: &TypedAction,
    now: &[Value],
    before: &[Value],
    base: u128,
    cells: &[Value],
) -> bool
    requires { base + 2 ^ 64 ≤ 2 ^ 128 }
    ensures { result ≡ runs base now.now before.now action.now.latch action.now.associations.items cells.now }
{
    (latch_is_on(action.latch, base, cells) || any_asks(&action.associations, now, before))
        && !any_resets(&action.associations, now)
}

/// Sets or resets the latch of each action that has one.
pub fn latch_all(actions: &[TypedAction], now: &[Value], scope: &Scope<'_>, cells: &mut [Value])
    requires { scope.now.base + 2 ^ 64 ≤ 2 ^ 128 }
    ensures { cells.new ≡ all_latched scope.now.ranges.now scope.now.base now.now (actions_view actions.now) cells.old }
{
    for action in actions {
        latch(action, now, scope, cells);
    }
}

fn latch(action: &TypedAction, now: &[Value], scope: &Scope<'_>, cells: &mut [Value])
    requires { scope.now.base + 2 ^ 64 ≤ 2 ^ 128 }
    ensures { cells.new ≡ latched scope.now.ranges.now scope.now.base now.now action.now.latch action.now.associations.items cells.old }
{
    if let Some(place) = action.latch {
        let next = next_latch(action, now, scope.base, cells);
        store(
            scope.ranges,
            scope.base + place as u128,
            number(next),
            cells,
        );
    }
}

fn next_latch(action: &TypedAction, now: &[Value], base: u128, cells: &[Value]) -> bool
    requires { base + 2 ^ 64 ≤ 2 ^ 128 }
    ensures { result ≡ next_latch base now.now action.now.latch action.now.associations.items cells.now }
{
    (latch_is_on(action.latch, base, cells) || any_sets(&action.associations, now))
        && !any_resets(&action.associations, now)
}

fn is_next(now: &[Value], exited: &[Value], entered: &[Value], step: usize) -> bool
    ensures { result ≡ is_next_from now.now exited.now entered.now step }
{
    is_on(now, step) && !is_on(exited, step) || is_on(entered, step)
}

fn number(holds: bool) -> Value
    ensures { result ≡ number_of holds }
{
    Value::from(holds)
}

/// Writes the marking that was, and the next one.
pub fn mark(
    steps: &[StepCells],
    now: &[Value],
    exited: &[Value],
    entered: &[Value],
    scope: &Scope<'_>,
    cells: &mut [Value],
)
    requires { scope.now.base + 2 ^ 64 ≤ 2 ^ 128 }
    ensures { cells.new ≡ marked scope.now.ranges.now scope.now.base now.now (is_next_from now.now exited.now entered.now) 0 steps.now cells.old }
{
    for i in 0..steps.len() {
        let was = read(now, i as u128);
        store(
            scope.ranges,
            scope.base + steps[i].before as u128,
            was,
            cells,
        );
        let next = is_next(now, exited, entered, i);
        store(
            scope.ranges,
            scope.base + steps[i].active as u128,
            number(next),
            cells,
        );
    }
}
