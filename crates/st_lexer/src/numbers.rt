// The values of numbers.
ghost use Rattle.std.specs.Prelude.{◌≡◌, ◌≤◌, ◌+◌, ◌*◌, ◌^◌, min, option_map, unwrap_or, IfOk, IfErr, OnOk};
ghost use Rattle.source_tree.specs.Numbers.{digit, based, value_of, in_64_bits};
ghost use Rattle.st_lexer.specs.Parts.{number_rule};

use rules::Rule;

fn digit(b: u8) -> u8
    ensures { result ≡ digit b }
{
    match b {
        b'0'..=b'9' => b - b'0',
        b'A'..=b'F' => b - b'A' + 10,
        b'a'..=b'f' => b - b'a' + 10,
        _ => 16,
    }
}

// A value with one digit more behind it; None stands for 2^64 or more.
fn with_digit(value: Option<u64>, base: u8, digit: u8) -> Option<u64>
    requires { 1 ≤ base }
    ensures { unwrap_or result (2 ^ 64) ≡ min (unwrap_or value (2 ^ 64) * base + digit) (2 ^ 64) }
{
    value?
        .checked_mul(u64::from(base))?
        .checked_add(u64::from(digit))
}

// The value of digits of a base, where they are of their form; None stands for 2^64 or more.
fn digits(base: u8, text: &[u8]) -> Option<Option<u64>>
    requires low { 2 ≤ base }
    requires high { base ≤ 16 }
    ensures { option_map (λ v. unwrap_or v (2 ^ 64)) result ≡ option_map (λ v. min v (2 ^ 64)) (based base text.now) }
{
    let mut value = Some(0);
    let mut needed = true;
    for b in text {
        if *b == b'_' {
            if needed {
                return None;
            }
            needed = true;
        } else {
            let digit = digit(*b);
            if digit >= base {
                return None;
            }
            value = with_digit(value, base, digit);
            needed = false;
        }
    }
    if needed { None } else { Some(value) }
}

// The value of a number, where it has a form; None stands for 2^64 or more.
#[tactic(auto, unfolding(source_tree::specs::Numbers::value_of))]
fn cut_value(text: &[u8]) -> Option<Option<u64>>
    ensures { option_map (λ v. unwrap_or v (2 ^ 64)) result ≡ option_map (λ v. min v (2 ^ 64)) (value_of text.now) }
{
    if text.starts_with(b"2#") {
        digits(2, &text[2..])
    } else if text.starts_with(b"8#") {
        digits(8, &text[2..])
    } else if text.starts_with(b"16#") {
        digits(16, &text[3..])
    } else {
        digits(10, text)
    }
}

/// The value of a number token's slice, or the rule that it breaks.
pub fn number(slice: &[u8]) -> Result<u64, Rule>
    ensures value { IfOk result (λ v. in_64_bits (value_of slice.now) ≡ Some v) }
    ensures kept { OnOk result (number_rule (value_of slice.now) ≡ None) }
    ensures broken { IfErr result (λ r. number_rule (value_of slice.now) ≡ Some r) }
{
    match cut_value(slice) {
        None => Err(Rule::NumberForm),
        Some(None) => Err(Rule::NumberSize),
        Some(Some(value)) => Ok(value),
    }
}
