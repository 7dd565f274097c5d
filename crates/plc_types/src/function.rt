// Standard functions (IEC 61131-3, 2.5.1.5).
use crate::elementary::Elementary;

/// How a bit string is moved: by a shift, which fills with zeros, or by a rotation.
#[derive(Clone, Copy)]
pub enum Shift {
    Left,
    Right,
    RotateLeft,
    RotateRight,
}

/// A standard function as a text names it: a conversion `A_TO_B`, ABS, MIN, MAX, LIMIT, SEL, or one of SHL,
/// SHR, ROL and ROR.
#[derive(Clone, Copy)]
pub enum StandardFunction {
    Conversion { from: Elementary, to: Elementary },
    Absolute,
    Minimum,
    Maximum,
    Limit,
    Select,
    Shift(Shift),
}

/// A standard function of a typed program. A conversion has the type that it converts from, and a shift its amount, in bits.
#[derive(Clone, Copy)]
pub enum Function {
    Convert(Elementary),
    Absolute,
    Minimum,
    Maximum,
    Limit,
    Select,
    Shift(Shift, u8),
}
