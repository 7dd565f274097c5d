// How many turns a FOR has, and whether it may have them.
ghost use Rattle.std.specs.Prelude.{◌≡◌, ◌≢◌, ◌+◌, pos, min};
ghost use Rattle.plc_types.specs.Types.{in_range};
ghost use Rattle.typing.specs.Constants.{goes_on, turn_count, are_in_range, broken_by_turns};
ghost use Rattle.stmt_types.specs.Steps.{end_towards, steps_within};

use plc_types::{Range, Value};
use rules::Rule;

/// How many turns a FOR has at most.
const MOST_TURNS: u16 = 4096;

// A turn begins with a value that does not pass the last one, in the direction of the step.
fn goes_on(value: Value, last: Value, step: Value) -> bool
    ensures { result ≡ goes_on value last step }
{
    if 0 < step {
        value <= last
    } else {
        last <= value
    }
}

// The first turn and so many more; 4,097 stand for any greater number.
fn with_first(more: u128) -> u16
    ensures { result ≡ min 4097 (more + 1) }
{
    if more < u128::from(MOST_TURNS) {
        more as u16 + 1
    } else {
        MOST_TURNS + 1
    }
}

/// How many turns a FOR has; 4,097 stand for any greater number.
pub fn turn_count(first: Value, last: Value, step: Value) -> u16
    ensures { result ≡ turn_count first last step }
{
    if !goes_on(first, last, step) {
        return 0;
    }
    if step == 0 {
        return MOST_TURNS + 1;
    }
    with_first(last.abs_diff(first) / step.unsigned_abs())
}

fn in_range(value: Value, range: Range) -> bool
    ensures { result ≡ in_range value range }
{
    range.low <= value && value <= range.high
}

// The end of a range in the direction of a step.
fn end_towards(step: Value, range: Range) -> Value
    ensures { result ≡ end_towards step range }
{
    if 0 < step { range.high } else { range.low }
}

// How many steps lead from a value of a range no further than its end in their direction.
fn steps_within(first: Value, step: Value, range: Range) -> u128
    requires { step ≢ pos 0 }
    ensures { result ≡ steps_within first step range }
{
    end_towards(step, range).abs_diff(first) / step.unsigned_abs()
}

// Whether the value of each of so many turns, and the one that ends the FOR, lie in a range: the first of these values
// does, and there are so many steps from it on. So no value is worked out that could be past any number.
fn are_in_range(count: u16, first: Value, step: Value, range: Range) -> bool
    requires { step ≢ pos 0 }
    ensures { result ≡ are_in_range count first step range }
{
    in_range(first, range) && u128::from(count) <= steps_within(first, step, range)
}

/// The rule that the turns of a FOR break, whose control variable has a range.
pub fn broken_by_turns(range: Range, first: Value, last: Value, step: Value) -> Option<Rule>
    ensures { result ≡ broken_by_turns range first last step }
{
    if step == 0 {
        return Some(Rule::StepZero);
    }
    let count = turn_count(first, last, step);
    if count > MOST_TURNS {
        Some(Rule::TooManyTurns)
    } else if are_in_range(count, first, step, range) {
        None
    } else {
        Some(Rule::OutsideControl)
    }
}
