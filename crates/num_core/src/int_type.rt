// An integer type: its width and sign, and the range that it allows.

ghost use Rattle.std.specs.Prelude.{◌≡◌, ◌<◌, ◌≤◌, ◌^◌, ◌≤ℤ◌, ◌<ℤ◌, pos};
ghost use Rattle.num_core.specs.Ranges.{lowest, highest};

/// An integer type, as the elementary types of IEC 61131-3, table 10, and their subranges: a number
/// of `width` bits, in two's complement if `signed`, from `lo` to `hi`. BOOL is one unsigned bit.
#[derive(Clone, Copy)]
pub struct IntType {
    pub width: u32,
    pub signed: bool,
    pub lo: i128,
    pub hi: i128,
    ghost some_bits: { 0 < width },
    ghost at_most_64_bits: { width ≤ 64 },
    ghost lo_in_range: { lowest width signed ≤ℤ lo },
    ghost ordered: { lo ≤ℤ hi },
    ghost hi_in_range: { hi ≤ℤ highest width signed },
}

impl IntType {
    /// The type of all numbers of this width and sign.
    pub fn whole(width: u32, signed: bool) -> IntType
        requires some_bits { 0 < width }
        requires at_most_64_bits { width ≤ 64 }
        ensures width { result.width ≡ width }
        ensures sign { result.signed ≡ signed }
        ensures from { result.lo ≡ lowest width signed }
        ensures up_to { result.hi ≡ highest width signed }
    {
        IntType {
            width,
            signed,
            lo: least(width, signed),
            hi: greatest(width, signed),
        }
    }
}

// The least number of a width and sign.
fn least(width: u32, signed: bool) -> i128
    requires some_bits { 0 < width }
    requires at_most_64_bits { width ≤ 64 }
    ensures { result ≡ lowest width signed }
{
    if signed { -power_of_two(width - 1) } else { 0 }
}

// The greatest number of a width and sign.
pub(crate) fn greatest(width: u32, signed: bool) -> i128
    requires some_bits { 0 < width }
    requires at_most_64_bits { width ≤ 64 }
    ensures { result ≡ highest width signed }
{
    if signed {
        power_of_two(width - 1) - 1
    } else {
        power_of_two(width) - 1
    }
}

// Two to the power of `exponent`.
pub(crate) fn power_of_two(exponent: u32) -> i128
    requires { exponent ≤ 64 }
    ensures value { result ≡ pos (2 ^ exponent) }
    ensures positive { pos 0 <ℤ result }
    ensures bounded { result ≤ℤ pos (2 ^ 64) }
{
    1i128 << exponent
}
