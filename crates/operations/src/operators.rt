// What operators make of values.
ghost use Rattle.std.specs.Prelude.{◌≡◌, ◌+ℤ◌, ◌-ℤ◌, ◌*ℤ◌, neg_ℤ};
ghost use Rattle.plc_types.specs.declared.operator.UnaryOperator.TheVariants as signs;
ghost use Rattle.num_core.specs.Division.{quot, rem};
ghost use Rattle.plc_types.specs.Types.{wrap_to};
ghost use Rattle.meaning.specs.Values.{unary_applied, unary_result, or_zero, applied, divides_by_zero};

use crate::wrapping::{truth, wrap_bits, wrap_value};
use plc_types::{Elementary, Operator, UnaryOperator, Value};

/// Whether an operator meets a divisor of 0.
#[inline(always)]
pub fn divides_by_zero(operator: Operator, right: Value) -> bool
    ensures { result ≡ divides_by_zero operator right }
{
    matches!(operator, Operator::Divide | Operator::Mod) && right == 0
}

/// What a unary operator makes of a value.
#[inline(always)]
pub fn apply_unary(operator: UnaryOperator, kind: Elementary, value: Value) -> Value
    ensures { result ≡ unary_applied operator kind value }
{
    match operator {
        UnaryOperator::Minus => negated(kind, value),
        UnaryOperator::Not => turned(kind, value),
    }
}

fn negated(kind: Elementary, value: Value) -> Value
    ensures { result ≡ wrap_to kind (neg_ℤ value) }
{
    wrap_value(kind, value.wrapping_neg())
}

// Each bit turned. FALSE and TRUE need not be wrapped.
fn turned(kind: Elementary, value: Value) -> Value
    ensures { result ≡ wrap_to kind (unary_result signs.Not value) }
{
    match (kind, value) {
        (Elementary::Bool, 0) => 1,
        (Elementary::Bool, 1) => 0,
        _ => wrap_value(kind, -1 - value),
    }
}

/// What an operator makes of two values. A result is kept in 128 bits before it is wrapped to its type, which takes nothing from it.
#[inline(always)]
pub fn apply(operator: Operator, kind: Elementary, left: Value, right: Value) -> Value
    ensures { result ≡ applied operator kind left right }
{
    match operator {
        Operator::Or => wrap_bits(kind, left.unsigned_abs() | right.unsigned_abs()),
        Operator::Xor => wrap_bits(kind, left.unsigned_abs() ^ right.unsigned_abs()),
        Operator::And => wrap_bits(kind, left.unsigned_abs() & right.unsigned_abs()),
        Operator::Equal => truth(left == right),
        Operator::NotEqual => truth(left != right),
        Operator::Less => truth(left < right),
        Operator::Greater => truth(left > right),
        Operator::LessEqual => truth(left <= right),
        Operator::GreaterEqual => truth(left >= right),
        Operator::Plus => sum(kind, left, right),
        Operator::Minus => difference(kind, left, right),
        Operator::Times => product(kind, left, right),
        Operator::Divide => quotient(kind, left, right),
        Operator::Mod => remainder(kind, left, right),
    }
}

#[inline(always)]
fn sum(kind: Elementary, left: Value, right: Value) -> Value
    ensures { result ≡ wrap_to kind (left +ℤ right) }
{
    wrap_value(kind, left.wrapping_add(right))
}

#[inline(always)]
fn difference(kind: Elementary, left: Value, right: Value) -> Value
    ensures { result ≡ wrap_to kind (left -ℤ right) }
{
    wrap_value(kind, left.wrapping_sub(right))
}

// The product of two numbers of 64 bits without a sign has more than 127 bits.
#[inline(always)]
fn product(kind: Elementary, left: Value, right: Value) -> Value
    ensures { result ≡ wrap_to kind (left *ℤ right) }
{
    wrap_value(kind, left.wrapping_mul(right))
}

// A quotient by -1 is the negation: of the least number of 128 bits it has one bit more.
#[inline(always)]
fn quotient(kind: Elementary, left: Value, right: Value) -> Value
    ensures { result ≡ wrap_to kind (or_zero (quot left right)) }
{
    if right == 0 {
        wrap_value(kind, 0)
    } else if right == -1 {
        negated(kind, left)
    } else {
        wrap_value(kind, left / right)
    }
}

#[inline(always)]
fn remainder(kind: Elementary, left: Value, right: Value) -> Value
    ensures { result ≡ wrap_to kind (or_zero (rem left right)) }
{
    if right == 0 {
        wrap_value(kind, 0)
    } else {
        wrap_value(kind, left.wrapping_rem(right))
    }
}
