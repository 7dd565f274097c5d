ghost use Rattle.std.specs.Prelude.{◌≡◌, ◌<◌, length, IfOk};
ghost use Rattle.plc_types.specs.Types.{width_of};
ghost use Rattle.word_circuits.specs.Comparisons.{is_zero_of, outside_of};
ghost use Rattle.word_circuits.specs.Conversions.{any_of};
ghost use Rattle.node_circuits.specs.Rows.{one_bit, conversion_of, shift_of};
ghost use Rattle.node_circuits.specs.Makes.{Makes};

use crate::operands::one_bit;
use clause_core::Lit;
use gates::{Circuit, GateFault};
use plc_types::{Elementary, Range, Shift};
use std::alloc::{AllocError, Global};
use word_circuits::{any, is_zero, outside, resize, rol, ror, shl, shr};

// Whether some bit of a word is set, as a word of one bit.
fn truth(alloc: Global, circuit: &mut Circuit, a: &[Lit]) -> Result<Vec<Lit>, GateFault>
    ensures { Makes (one_bit (any_of a.now circuit.old)) circuit.old circuit.new result }
{
    let bit = any(circuit, a)?;
    let Ok(word) = one_bit(alloc, bit) else {
        return Err(GateFault::Memory);
    };
    Ok(word)
}

// A conversion of a word from a type to another.
pub(crate) fn conversion(
    alloc: Global,
    circuit: &mut Circuit,
    from: Elementary,
    to: Elementary,
    a: &[Lit],
) -> Result<Vec<Lit>, GateFault>
    ensures { Makes (conversion_of from to a.now circuit.old) circuit.old circuit.new result }
{
    if matches!(to, Elementary::Bool) {
        return truth(alloc, circuit, a);
    }
    let Ok(word) = resize(alloc, from.is_signed(), to.width() as usize, a) else {
        return Err(GateFault::Memory);
    };
    circuit.count();
    Ok(word)
}

// A word shifted or rotated by so many places, which takes no gates.
pub(crate) fn shifted(
    alloc: Global,
    shift: Shift,
    places: usize,
    a: &[Lit],
) -> Result<Vec<Lit>, AllocError>
    requires { 0 < length a.now }
    ensures { IfOk result (λ w. w.items ≡ shift_of shift places a.now) }
{
    match shift {
        Shift::Left => shl(alloc, a, places),
        Shift::Right => shr(alloc, a, places),
        Shift::RotateLeft => rol(alloc, a, places),
        Shift::RotateRight => ror(alloc, a, places),
    }
}

// Whether a word is zero, as a word of one bit.
pub(crate) fn zero_test(
    alloc: Global,
    circuit: &mut Circuit,
    a: &[Lit],
) -> Result<Vec<Lit>, GateFault>
    ensures { Makes (one_bit (is_zero_of a.now circuit.old)) circuit.old circuit.new result }
{
    let bit = is_zero(alloc, circuit, a)?;
    let Ok(word) = one_bit(alloc, bit) else {
        return Err(GateFault::Memory);
    };
    Ok(word)
}

// Whether a word of a signed or an unsigned type lies outside of a range, as a word of one bit.
pub(crate) fn range_test(
    alloc: Global,
    circuit: &mut Circuit,
    signed: bool,
    range: Range,
    a: &[Lit],
) -> Result<Vec<Lit>, GateFault>
    ensures { Makes (one_bit (outside_of signed a.now range.low range.high circuit.old)) circuit.old circuit.new result }
{
    let bit = outside(alloc, circuit, signed, a, range.low, range.high)?;
    let Ok(word) = one_bit(alloc, bit) else {
        return Err(GateFault::Memory);
    };
    Ok(word)
}
