// A whole number of 64 bits, with a sign or without, from the text of a number.
ghost use Rattle.std.specs.Prelude.{◌≡◌, ◌==◌, ◌<◌, length, slice_index, true, false, IsTrue, option_and_then};
ghost use Rattle.serde_json.specs.Find.{as_integer};
ghost use Rattle.serde_json.specs.Read.{number_of, number_from};

use fast_float::Numeral;
use plc_types::Value;

fn has_minus(bytes: &[u8]) -> bool
    ensures value { result ≡ (slice_index bytes.now 0 == 45) }
    ensures len { IsTrue result → 0 < length bytes.now }
{
    !bytes.is_empty() && bytes[0] == b'-'
}

fn unsigned(numeral: &Numeral<'_>) -> Option<Value>
    ensures { result ≡ option_and_then as_integer (number_from false numeral.now) }
{
    match numeral.to_u64() {
        Some(number) => Some(Value::from(number)),
        None => None,
    }
}

// `-0` is no whole number.
fn negative(numeral: &Numeral<'_>) -> Option<Value>
    ensures { result ≡ option_and_then as_integer (number_from true numeral.now) }
{
    match numeral.to_i64(true) {
        Some(number) if number < 0 => Some(Value::from(number)),
        _ => None,
    }
}

/// The number that a token of JSON writes, where it is whole and fits.
pub(crate) fn whole_number(text: &str) -> Option<Value>
    ensures { result ≡ option_and_then as_integer (number_of text.now) }
{
    let bytes = text.as_bytes();
    if has_minus(bytes) {
        negative(&Numeral::scan(&bytes[1..]))
    } else {
        unsigned(&Numeral::scan(bytes))
    }
}
