// What a name stands for that is a value of an enumeration.
ghost use Rattle.std.specs.Prelude.{◌≡◌};
ghost use Rattle.expr_types.specs.ValueMeanings.{valued};

use plc_types::{DataType, Range, Value};
use typing::{Meaning, Place};

/// What a value of the type of a number stands for.
pub fn valued(kind: usize, value: Value, whole: bool) -> Meaning
    ensures { result ≡ valued kind value whole }
{
    Meaning {
        place: Place::Value(value),
        kind: DataType::Enumeration(kind),
        range: Range {
            low: value,
            high: value,
        },
        whole,
        assignable: false,
        control: false,
    }
}
