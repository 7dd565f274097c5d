// Numbers in a type's range, and numbers wrapped to its width and sign.

ghost use Rattle.std.specs.Prelude.{◌≡◌, ◌↔◌, ◌*ℤ◌, ℤ, IsTrue};
ghost use Rattle.num_core.specs.Ranges.{Fits};
ghost use Rattle.num_core.specs.Wrapping.{wrap, Wraps};

use crate::int_type::{IntType, greatest, power_of_two};

/// What is left of `v` when it is kept in the width and sign of `t`; its subrange has no part in it.
pub fn wrap(v: i128, t: IntType) -> i128
    ensures value { result ≡ wrap t.width t.signed v }
    ensures wraps { Wraps t.width t.signed v result }
    ensures only { (n : ℤ) → Wraps t.width t.signed v n → n ≡ result }
{
    let modulus = power_of_two(t.width);
    let remainder = v.rem_euclid(modulus);
    if remainder > greatest(t.width, t.signed) {
        remainder - modulus
    } else {
        remainder
    }
}

/// The product of `a` and `b`, kept in the width and sign of `t`. Two numbers of 64 bits have a product of up to 128.
pub fn mul(a: i128, b: i128, t: IntType) -> i128
    ensures { result ≡ wrap t.width t.signed (a *ℤ b) }
{
    wrap(a.wrapping_mul(b), t)
}

/// Whether `v` lies in the type's range, its subrange included.
pub fn fits(v: i128, t: IntType) -> bool
    ensures { IsTrue result ↔ Fits t.lo t.hi v }
{
    t.lo <= v && v <= t.hi
}
