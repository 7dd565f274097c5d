// The turns of a FOR.
ghost use Rattle.std.specs.Prelude.{◌≡◌, ◌≤◌, ◌+◌, ◌*◌, ◌^◌, ℤ, ◌+ℤ◌, length, if◌then◌else◌, slice_set, pos};
ghost use Rattle.plc_types.specs.Types.{in_range};
ghost use Rattle.program_tree.specs.View.{stmts_view};
ghost use Rattle.meaning.specs.Effects.{effect_of_turns, effect_of_all};
ghost use Rattle.meaning.specs.Room.{markings_in_all};
ghost use Rattle.interpreter.specs.Outcomes.{effect_with};
ghost use Rattle.interpreter.specs.Scopes.{callees_here, room_here};
ghost use Rattle.interpreter.specs.Turning.{StandsFor};

use crate::cells::{is_in_range, put, range_at};
use crate::outcome::Outcome;
use crate::scope::Scope;
use crate::statements::run_all;
use plc_types::{Range, Value};
use program_tree::{Turns, TypedStmt};

/// Runs a body turn by turn, and leaves the control variable at the value that ends them. A turn that an EXIT or a RETURN leaves is the
/// last one, and the control variable keeps its value.
#[cycle(run)]
pub fn run_turns(
    body: &[TypedStmt],
    turns: Turns,
    scope: &Scope<'_>,
    cells: &mut [Value],
    stack: &mut [Value],
) -> Outcome
    requires known { scope.now.below ≤ length scope.now.called.now }
    requires bound { scope.now.base + (scope.now.below + 1) * 2 ^ 64 ≤ 2 ^ 128 }
    requires room { room_here scope.now + markings_in_all (stmts_view body.now) ≤ length stack.old }
    ensures effect { effect_with result cells.new ≡ effect_of_turns scope.now.ranges.now turns.count (scope.now.base + turns.control) turns.first turns.step
        (effect_of_all (callees_here scope.now) scope.now.ranges.now scope.now.base (stmts_view body.now)) cells.old }
    ensures room { length stack.new ≡ length stack.old }
{
    let control = scope.base + turns.control as u128;
    let range = range_at(scope.ranges, control);
    let mut value = Some(turns.first);
    for _ in 0..turns.count {
        set_control(control, range, value, cells);
        match run_all(body, scope, cells, stack) {
            Outcome::On => {}
            Outcome::Exit => return Outcome::On,
            Outcome::Return => return Outcome::Return,
        }
        value = next_value(value, turns.step);
    }
    set_control(control, range, value, cells);
    Outcome::On
}

// The value behind a turn; none where 128 bits do not hold it.
fn next_value(value: Option<Value>, step: Value) -> Option<Value>
    ensures { (v : ℤ) → StandsFor value step v → StandsFor result step (v +ℤ step) }
{
    match value {
        Some(value) => value.checked_add(step),
        None => None,
    }
}

// Gives the control variable a value where that is in its range; else that is a fault. A number that 128 bits do not hold is in no range.
fn set_control(control: u128, range: Range, value: Option<Value>, cells: &mut [Value])
    ensures { (step v : ℤ) → StandsFor value step v → cells.new ≡ (if in_range v range then slice_set cells.old control v else slice_set cells.old 0 (pos 1)) }
{
    match value {
        Some(value) => assign(control, range, value, cells),
        None => put(cells, 0, 1),
    }
}

fn assign(control: u128, range: Range, value: Value, cells: &mut [Value])
    ensures { cells.new ≡ (if in_range value range then slice_set cells.old control value else slice_set cells.old 0 (pos 1)) }
{
    if is_in_range(value, range) {
        put(cells, control, value);
    } else {
        put(cells, 0, 1);
    }
}
