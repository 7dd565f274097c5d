ghost use Rattle.std.specs.Prelude.{◌≡◌, ◌≤◌, length};
ghost use Rattle.clause_core.specs.Satisfaction.{literal_true, assigned};
ghost use Rattle.plc_types.specs.Types.{width_of, is_signed};
ghost use Rattle.word_laws.specs.Numbers.{bit, number, value};

use clause_core::{Assignment, Lit};
use operations::wrap_value;
use plc_types::{Elementary, Value};

// 1 where a literal is true, and 0 where it is false.
fn bit(lit: Lit, found: &Assignment) -> u64
    ensures { result ≡ bit (literal_true (assigned found.now) lit) }
{
    if found.value(lit.variable) == lit.negative {
        0
    } else {
        1
    }
}

// The number that a word spells in binary.
fn number(word: &[Lit], found: &Assignment) -> u64
    requires { length word.now ≤ 64 }
    ensures { result ≡ number (assigned found.now) word.now }
{
    match word.split_first() {
        None => 0,
        Some((lit, rest)) => bit(*lit, found) + 2 * number(rest, found),
    }
}

/// The number of a type that a word of its width spells.
pub(crate) fn value(kind: Elementary, word: &[Lit], found: &Assignment) -> Value
    requires { length word.now ≡ width_of kind }
    ensures { result ≡ value (is_signed kind) (assigned found.now) word.now }
{
    kind.width();
    wrap_value(kind, Value::from(number(word, found)))
}
