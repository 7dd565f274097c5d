// What standard functions take and give (IEC 61131-3, 2.5.1.5).
ghost use Rattle.std.specs.Prelude.{◌≡◌};
ghost use Rattle.typing.specs.Typing.{parameter_of, result_of, is_bit_string, is_number_type, takes_operands, takes_count};
ghost use Rattle.typing.specs.Judged.{expected_at};
ghost use Rattle.synthesized_types.specs.Parameters.{parameter_view};

use crate::kinds::{has_bits, is_bool, is_ordered};
use plc_types::{DataType, Elementary, StandardFunction};

/// What a standard function takes at a place: a value of a type of its own, of the one type that its operands and
/// its result share, or the amount of a shift.
#[derive(Clone, Copy, PartialEq, Eq)]
pub enum Parameter {
    Fixed(Elementary),
    Common,
    Amount,
}

/// What a function takes at a place from 0.
pub fn parameter_of(function: StandardFunction, place: usize) -> Parameter
    ensures { parameter_view result ≡ parameter_of function place }
{
    match function {
        StandardFunction::Conversion { from, .. } => Parameter::Fixed(from),
        StandardFunction::Absolute => Parameter::Common,
        StandardFunction::Minimum | StandardFunction::Maximum => Parameter::Common,
        StandardFunction::Limit => Parameter::Common,
        StandardFunction::Select => {
            if place == 0 {
                Parameter::Fixed(Elementary::Bool)
            } else {
                Parameter::Common
            }
        }
        StandardFunction::Shift(_) => {
            if place == 1 {
                Parameter::Amount
            } else {
                Parameter::Common
            }
        }
    }
}

/// The type that is expected of an argument where the operands are of a type.
pub fn expected_at(parameter: Parameter, kind: DataType) -> Option<DataType>
    ensures { result ≡ expected_at (parameter_view parameter) kind }
{
    match parameter {
        Parameter::Fixed(own) => Some(DataType::Elementary(own)),
        Parameter::Common => Some(kind),
        Parameter::Amount => None,
    }
}

/// The type of a conversion's result; that of any other function is the one type of its operands.
pub fn result_of(function: StandardFunction) -> Option<DataType>
    ensures { result ≡ result_of function }
{
    match function {
        StandardFunction::Conversion { to, .. } => Some(DataType::Elementary(to)),
        StandardFunction::Absolute => None,
        StandardFunction::Minimum | StandardFunction::Maximum => None,
        StandardFunction::Limit | StandardFunction::Select => None,
        StandardFunction::Shift(_) => None,
    }
}

// Whether a type is a bit string of more than one bit.
fn is_bit_string(kind: DataType) -> bool
    ensures { result ≡ is_bit_string kind }
{
    has_bits(kind) && !is_bool(kind)
}

// Whether a type is an integer type or a bit string of more than one bit.
fn is_number_type(kind: DataType) -> bool
    ensures { result ≡ is_number_type kind }
{
    is_ordered(kind) && !is_bool(kind)
}

/// Whether the operands of a function may be of a type.
pub fn takes_operands(function: StandardFunction, kind: DataType) -> bool
    ensures { result ≡ takes_operands function kind }
{
    match function {
        StandardFunction::Conversion { .. } | StandardFunction::Select => true,
        StandardFunction::Absolute => kind.is_integer(),
        StandardFunction::Minimum | StandardFunction::Maximum => is_number_type(kind),
        StandardFunction::Limit => is_number_type(kind),
        StandardFunction::Shift(_) => is_bit_string(kind),
    }
}

/// Whether a function takes so many arguments.
pub fn takes_count(function: StandardFunction, count: usize) -> bool
    ensures { result ≡ takes_count function count }
{
    match function {
        StandardFunction::Conversion { .. } | StandardFunction::Absolute => count == 1,
        StandardFunction::Minimum | StandardFunction::Maximum => count >= 2,
        StandardFunction::Limit | StandardFunction::Select => count == 3,
        StandardFunction::Shift(_) => count == 2,
    }
}
