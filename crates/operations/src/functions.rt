// What standard functions make of values.
ghost use Rattle.std.specs.Prelude.{◌≡◌, [], ◌∷◌, pos, ◌<◌, ◌≤◌, ◌^◌, ◌%◌, unsigned_abs};
ghost use Rattle.plc_types.specs.Types.{width_of, wrap_to};
ghost use Rattle.meaning.specs.Values.{called, converted, limited, selected, lesser, greater, shifted, rotated, moved_left, moved_right};
ghost use Rattle.operations.specs.Joined.{joined};

use crate::wrapping::{truth, wrap_bits, wrap_value};
use plc_types::{Elementary, Function, Shift, Value};

/// What a function makes of one value.
pub fn call_of_one(function: Function, kind: Elementary, value: Value) -> Value
    ensures { result ≡ called function kind (value ∷ []) }
{
    match function {
        Function::Convert(_) => convert(kind, value),
        Function::Absolute => wrap_bits(kind, value.unsigned_abs()),
        Function::Minimum | Function::Maximum => wrap_value(kind, value),
        Function::Limit | Function::Select => wrap_value(kind, 0),
        Function::Shift(shift, amount) => move_bits(shift, amount, kind, value),
    }
}

/// What a function makes of three values.
pub fn call_of_three(
    function: Function,
    kind: Elementary,
    one: Value,
    two: Value,
    three: Value,
) -> Value
    ensures { result ≡ called function kind (one ∷ two ∷ three ∷ []) }
{
    match function {
        Function::Minimum => wrap_value(kind, lesser(lesser(one, two), three)),
        Function::Maximum => wrap_value(kind, greater(greater(one, two), three)),
        Function::Limit => wrap_value(kind, limited(one, two, three)),
        Function::Select => wrap_value(kind, selected(one, two, three)),
        Function::Convert(_) | Function::Absolute | Function::Shift(_, _) => wrap_value(kind, 0),
    }
}

/// What MIN and MAX make of two values, one of which is what they make of the values before.
pub fn joined(function: Function, so_far: Value, value: Value) -> Value
    ensures { result ≡ joined function so_far value }
{
    match function {
        Function::Minimum => lesser(so_far, value),
        Function::Maximum => greater(so_far, value),
        Function::Convert(_)
        | Function::Absolute
        | Function::Limit
        | Function::Select
        | Function::Shift(_, _) => 0,
    }
}

fn convert(kind: Elementary, value: Value) -> Value
    ensures { result ≡ wrap_to kind (converted kind value) }
{
    match kind {
        Elementary::Bool => truth(value != 0),
        _ => wrap_value(kind, value),
    }
}

fn lesser(left: Value, right: Value) -> Value
    ensures { result ≡ lesser left right }
{
    if right < left { right } else { left }
}

fn greater(left: Value, right: Value) -> Value
    ensures { result ≡ greater left right }
{
    if left < right { right } else { left }
}

fn limited(low: Value, value: Value, high: Value) -> Value
    ensures { result ≡ limited low value high }
{
    lesser(greater(value, low), high)
}

fn selected(choice: Value, no: Value, yes: Value) -> Value
    ensures { result ≡ selected choice no yes }
{
    if choice == 1 { yes } else { no }
}

// The bits of a value, shifted or rotated.
fn move_bits(shift: Shift, amount: u8, kind: Elementary, value: Value) -> Value
    ensures { result ≡ wrap_to kind (pos (shifted shift (width_of kind) amount (unsigned_abs value))) }
{
    let bits = shifted(shift, kind.width(), u32::from(amount), value.unsigned_abs());
    wrap_bits(kind, bits)
}

// The bits below the 128th: a type has no others.
fn shifted(shift: Shift, width: u32, amount: u32, bits: u128) -> u128
    requires some_bits { 0 < width }
    requires at_most_64_bits { width ≤ 64 }
    ensures { result ≡ shifted shift width amount bits % 2 ^ 128 }
{
    match shift {
        Shift::Left => {
            if amount < width {
                moved_left(amount, bits)
            } else {
                0
            }
        }
        Shift::Right => {
            if amount < width {
                moved_right(amount, bits)
            } else {
                0
            }
        }
        Shift::RotateLeft => rotated(width, amount % width, bits),
        Shift::RotateRight => rotated(width, width - amount % width, bits),
    }
}

fn rotated(width: u32, amount: u32, bits: u128) -> u128
    requires at_most_64_bits { width ≤ 64 }
    requires within { amount ≤ width }
    ensures { result ≡ rotated width amount bits % 2 ^ 128 }
{
    moved_left(amount, bits).wrapping_add(moved_right(width - amount, bits))
}

fn moved_left(amount: u32, bits: u128) -> u128
    requires { amount ≤ 64 }
    ensures { result ≡ moved_left amount bits % 2 ^ 128 }
{
    bits.wrapping_mul(power_of_two(amount))
}

fn moved_right(amount: u32, bits: u128) -> u128
    requires { amount ≤ 64 }
    ensures value { result ≡ moved_right amount bits }
    ensures whole { result ≡ moved_right amount bits % 2 ^ 128 }
{
    bits / power_of_two(amount)
}

fn power_of_two(exponent: u32) -> u128
    requires { exponent ≤ 64 }
    ensures value { result ≡ 2 ^ exponent }
    ensures positive { 0 < result }
    ensures bounded { result ≤ 2 ^ 64 }
{
    1u128 << exponent
}
