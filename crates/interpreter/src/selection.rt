// The conditions of an IF and the entries of a CASE.
ghost use Rattle.std.specs.Prelude.{◌≡◌, ◌≤◌, ◌+◌, ◌*◌, ◌^◌, length};
ghost use Rattle.program_tree.specs.View.{choices_view, entries_view, stmts_view};
ghost use Rattle.meaning.specs.Effects.{is_named, is_labelled, effect_of_all, effect_of_choices, effect_of_entries};
ghost use Rattle.meaning.specs.Room.{markings_in_all, markings_in_choices, markings_in_entries};
ghost use Rattle.interpreter.specs.Outcomes.{effect_with};
ghost use Rattle.interpreter.specs.Scopes.{callees_here, room_here};

use crate::cells::{add_fault, is_in_range};
use crate::evaluation::evaluate_over;
use crate::outcome::Outcome;
use crate::scope::Scope;
use crate::statements::run_all;
use plc_types::Value;
use program_tree::{TypedArm, TypedEntry, TypedLabel, TypedStmt};

/// Evaluates conditions up to the first that is TRUE, and runs its statements; the others where there is none.
#[cycle(run)]
pub fn run_arms(
    arms: &[TypedArm],
    other: &[TypedStmt],
    scope: &Scope<'_>,
    cells: &mut [Value],
    stack: &mut [Value],
) -> Outcome
    requires known { scope.now.below ≤ length scope.now.called.now }
    requires bound { scope.now.base + (scope.now.below + 1) * 2 ^ 64 ≤ 2 ^ 128 }
    requires room { room_here scope.now + markings_in_choices (choices_view arms.now) + markings_in_all (stmts_view other.now) ≤ length stack.old }
    ensures effect { effect_with result cells.new ≡ effect_of_choices (callees_here scope.now) scope.now.ranges.now scope.now.base (choices_view arms.now)
        (effect_of_all (callees_here scope.now) scope.now.ranges.now scope.now.base (stmts_view other.now)) cells.old }
    ensures room { length stack.new ≡ length stack.old }
{
    for arm in arms {
        let given = evaluate_over(&arm.condition, cells, scope, stack);
        add_fault(given.fault, cells);
        if given.value == 1 {
            return run_all(&arm.body, scope, cells, stack);
        }
    }
    run_all(other, scope, cells, stack)
}

/// Runs the statements of the first entry that has a value among its labels; the others where there is none.
#[cycle(run)]
pub fn run_entries(
    entries: &[TypedEntry],
    other: &[TypedStmt],
    value: Value,
    scope: &Scope<'_>,
    cells: &mut [Value],
    stack: &mut [Value],
) -> Outcome
    requires known { scope.now.below ≤ length scope.now.called.now }
    requires bound { scope.now.base + (scope.now.below + 1) * 2 ^ 64 ≤ 2 ^ 128 }
    requires room { room_here scope.now + markings_in_entries (entries_view entries.now) + markings_in_all (stmts_view other.now) ≤ length stack.old }
    ensures effect { effect_with result cells.new ≡ effect_of_entries (callees_here scope.now) scope.now.ranges.now scope.now.base value (entries_view entries.now)
        (effect_of_all (callees_here scope.now) scope.now.ranges.now scope.now.base (stmts_view other.now)) cells.old }
    ensures room { length stack.new ≡ length stack.old }
{
    for entry in entries {
        if is_labelled(value, &entry.labels) {
            return run_all(&entry.body, scope, cells, stack);
        }
    }
    run_all(other, scope, cells, stack)
}

// Most entries have one label, which needs no loop.
fn is_labelled(value: Value, labels: &[TypedLabel]) -> bool
    ensures { result ≡ is_labelled value labels.now }
{
    match labels {
        [only] => is_named(value, *only),
        _ => is_in_any(value, labels),
    }
}

fn is_in_any(value: Value, labels: &[TypedLabel]) -> bool
    ensures { result ≡ is_labelled value labels.now }
{
    for label in labels {
        if is_named(value, *label) {
            return true;
        }
    }
    false
}

fn is_named(value: Value, label: TypedLabel) -> bool
    ensures { result ≡ is_named value label }
{
    match label {
        TypedLabel::Single(only) => value == only,
        TypedLabel::Span(range) => is_in_range(value, range),
    }
}
