// Numbers wrapped to a type.
ghost use Rattle.std.specs.Prelude.{◌≡◌, pos, ◌≤ℤ◌, ◌^◌};
ghost use Rattle.plc_types.specs.declared.elementary.Elementary.TheVariants as types;
ghost use Rattle.plc_types.specs.Types.{width_of, least_of, greatest_of, wrap_to};
ghost use Rattle.std.specs.Int.{int_rem_euclid};
ghost use Rattle.meaning.specs.Values.{number_of};

use plc_types::{Elementary, Value};

/// 1 where a test holds, as a BOOL.
#[inline(always)]
pub fn truth(holds: bool) -> Value
    ensures { result ≡ wrap_to types.Bool (number_of holds) }
{
    Value::from(holds)
}

/// The value of a type that differs from a number by a multiple of 2 to the type's width. Most numbers lie in
/// their type's range.
#[inline(always)]
pub fn wrap_value(kind: Elementary, value: Value) -> Value
    ensures { result ≡ wrap_to kind value }
{
    if least(kind) <= value && value <= greatest(kind) {
        value
    } else {
        wrapped(kind, value)
    }
}

/// The same of a natural number.
#[inline(always)]
pub fn wrap_bits(kind: Elementary, bits: u128) -> Value
    ensures { result ≡ wrap_to kind (pos bits) }
{
    wrap_value(kind, bits.cast_signed())
}

// The least number of a type.
#[inline(always)]
fn least(kind: Elementary) -> Value
    ensures { result ≡ least_of kind }
{
    match kind {
        Elementary::Sint => -0x80,
        Elementary::Int => -0x8000,
        Elementary::Dint => -0x8000_0000,
        Elementary::Lint => -0x8000_0000_0000_0000,
        Elementary::Bool
        | Elementary::Usint
        | Elementary::Uint
        | Elementary::Udint
        | Elementary::Ulint
        | Elementary::Byte
        | Elementary::Word
        | Elementary::Dword
        | Elementary::Lword => 0,
    }
}

// The greatest number of a type.
#[inline(always)]
fn greatest(kind: Elementary) -> Value
    ensures { result ≡ greatest_of kind }
{
    match kind {
        Elementary::Bool => 1,
        Elementary::Sint => 0x7f,
        Elementary::Int => 0x7fff,
        Elementary::Dint => 0x7fff_ffff,
        Elementary::Lint => 0x7fff_ffff_ffff_ffff,
        Elementary::Usint | Elementary::Byte => 0xff,
        Elementary::Uint | Elementary::Word => 0xffff,
        Elementary::Udint | Elementary::Dword => 0xffff_ffff,
        Elementary::Ulint | Elementary::Lword => 0xffff_ffff_ffff_ffff,
    }
}

#[inline(never)]
fn wrapped(kind: Elementary, value: Value) -> Value
    ensures { result ≡ wrap_to kind value }
{
    let remainder = remainder(kind, value);
    if remainder > greatest(kind) {
        remainder - modulus(kind)
    } else {
        remainder
    }
}

// Two to the power of the type's width.
fn modulus(kind: Elementary) -> Value
    ensures value { result ≡ pos (2 ^ width_of kind) }
    ensures bounded { result ≤ℤ pos (2 ^ 64) }
{
    match kind {
        Elementary::Bool => 2,
        Elementary::Sint | Elementary::Usint | Elementary::Byte => 0x100,
        Elementary::Int | Elementary::Uint | Elementary::Word => 0x1_0000,
        Elementary::Dint | Elementary::Udint | Elementary::Dword => 0x1_0000_0000,
        Elementary::Lint | Elementary::Ulint | Elementary::Lword => 0x1_0000_0000_0000_0000,
    }
}

// What a number leaves modulo 2 to the type's width. The divisors are constants, so that no division is needed.
fn remainder(kind: Elementary, value: Value) -> Value
    ensures value { result ≡ int_rem_euclid value (pos (2 ^ width_of kind)) }
    ensures not_negative { pos 0 ≤ℤ result }
{
    match kind {
        Elementary::Bool => value.rem_euclid(2),
        Elementary::Sint | Elementary::Usint | Elementary::Byte => value.rem_euclid(0x100),
        Elementary::Int | Elementary::Uint | Elementary::Word => value.rem_euclid(0x1_0000),
        Elementary::Dint | Elementary::Udint | Elementary::Dword => {
            value.rem_euclid(0x1_0000_0000)
        }
        Elementary::Lint | Elementary::Ulint | Elementary::Lword => {
            value.rem_euclid(0x1_0000_0000_0000_0000)
        }
    }
}
