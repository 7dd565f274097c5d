// Numbers of the elementary types.
ghost use Rattle.std.specs.Prelude.{◌≡◌};
ghost use Rattle.plc_types.specs.Types.{width_of, is_signed, least_of, greatest_of, range_of, in_range, wrap_to};

use num_core::{IntType, wrap};
use plc_types::{Elementary, Range, Value};

// The numbers of a type.
fn numbers_of(kind: Elementary) -> IntType
    ensures width { result.width ≡ width_of kind }
    ensures sign { result.signed ≡ is_signed kind }
    ensures from { result.lo ≡ least_of kind }
    ensures up_to { result.hi ≡ greatest_of kind }
{
    IntType::whole(kind.width(), kind.is_signed())
}

/// The values of a type.
pub fn range(kind: Elementary) -> Range
    ensures { result ≡ range_of kind }
{
    let numbers = numbers_of(kind);
    Range {
        low: numbers.lo,
        high: numbers.hi,
    }
}

/// Whether a number is a value of a type.
pub fn is_value_of(value: Value, kind: Elementary) -> bool
    ensures { result ≡ in_range value (range_of kind) }
{
    let numbers = numbers_of(kind);
    numbers.lo <= value && value <= numbers.hi
}

/// What is left of a number when it is kept in a type.
pub fn wrapped(value: Value, kind: Elementary) -> Value
    ensures { result ≡ wrap_to kind value }
{
    wrap(value, numbers_of(kind))
}
