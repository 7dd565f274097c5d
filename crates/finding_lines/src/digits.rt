// Numbers, read in one pass over their digits.
ghost use Rattle.std.specs.Prelude.{◌≡◌, ◌≢◌, ◌+◌, ◌∷◌, ◌^◌, ◌<◌, ◌≤◌, ◌*◌, ◌⊎◌, ℕ, List, MatchOption};
ghost use Rattle.std.specs.Char.{digit_value};
ghost use Rattle.std.specs.Fmt.{decimal, signed_decimal};
ghost use Rattle.finding_lines.specs.Numbers.{IsNumber, IsMagnitude};
ghost use Rattle.finding_lines.specs.Reading.{IsTaken, NoneTaken};

use plc_types::Value;

/// The magnitude of the least number.
const MOST_BELOW_ZERO: u64 = 0x8000_0000_0000_0000;

/// What follows the byte, if the bytes begin with it.
#[inline(always)]
pub fn after_byte(bytes: &[u8], byte: u8) -> Option<&[u8]>
    ensures { MatchOption result ((more : List ℕ) → bytes.now ≢ byte ∷ more) (λ more. bytes.now ≡ byte ∷ more.now) }
{
    let (first, more) = bytes.split_first()?;
    if *first == byte { Some(more) } else { None }
}

/// The digit that the byte is.
#[inline(always)]
fn digit_of(byte: u8) -> Option<u64>
    ensures { MatchOption result (10 ≤ digit_value byte) (λ d. (d < 10) × (byte ≡ 48 + d) × (digit_value byte ≡ d)) }
{
    if byte < b'0' || byte > b'9' {
        return None;
    }
    Some((byte - b'0') as u64)
}

/// The number with one digit more, if that is a magnitude.
#[inline(always)]
fn with_digit(number: u64, digit: u64) -> Option<u64>
    ensures { MatchOption result (2 ^ 64 ≤ number * 10 + digit) (λ n. (n ≡ number * 10 + digit) × IsMagnitude n) }
{
    number.checked_mul(10)?.checked_add(digit)
}

/// The magnitude in front, without a zero before other digits.
#[inline]
fn take_magnitude(bytes: &[u8]) -> Option<(u64, &[u8])>
    ensures { MatchOption result (NoneTaken IsMagnitude decimal bytes.now) (λ p. IsTaken IsMagnitude decimal bytes.now p.0 p.1.now) }
{
    let (first, behind) = bytes.split_first()?;
    let mut number = digit_of(*first)?;
    let mut rest = behind;
    'digits: while let Some((byte, more)) = rest.split_first() {
        if *byte == b' ' {
            return Some((number, rest));
        }
        let digit = digit_of(*byte)?;
        if number == 0 {
            return None;
        }
        number = with_digit(number, digit)?;
        rest = more;
    }
    Some((number, rest))
}

/// The number of that magnitude below 0, unless there is none.
#[inline(always)]
fn negative(magnitude: u64) -> Option<Value>
    ensures { MatchOption result ((magnitude ≡ 0) ⊎ (2 ^ 63 < magnitude)) (λ n. IsNumber n × (signed_decimal n ≡ 45 ∷ decimal magnitude)) }
{
    if magnitude == 0 || magnitude > MOST_BELOW_ZERO {
        None
    } else {
        Some(-1 - (magnitude - 1) as Value)
    }
}

/// The number in front, with no sign but a minus.
pub fn take_signed(bytes: &[u8]) -> Option<(Value, &[u8])>
    ensures { MatchOption result (NoneTaken IsNumber signed_decimal bytes.now) (λ p. IsTaken IsNumber signed_decimal bytes.now p.0 p.1.now) }
{
    if let Some(digits) = after_byte(bytes, b'-') {
        let (magnitude, rest) = take_magnitude(digits)?;
        let number = negative(magnitude)?;
        return Some((number, rest));
    }
    let (magnitude, rest) = take_magnitude(bytes)?;
    Some((magnitude as Value, rest))
}
