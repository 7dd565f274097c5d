// Literals: their synthesized types and their values.
ghost use Rattle.std.specs.Prelude.{◌≡◌, ◌<ℤ◌, ◌^◌, pos, neg_ℤ};
ghost use Rattle.typing.specs.Typing.{synthesized_of_literal, is_number_of, negated, truth_value, literal_value, is_literal_of, is_number, place_of_literal};

use crate::kinds::{bool_type, is_bool};
use crate::numbers::is_value_of;
use plc_types::DataType;
use source_tree::Literal;

/// The synthesized type of a literal; a number without a type before it has none.
pub fn synthesized_of_literal(literal: Literal) -> Option<DataType>
    ensures { result ≡ synthesized_of_literal literal }
{
    match literal {
        Literal::Number { .. } => None,
        Literal::Truth { .. } => Some(bool_type()),
        Literal::TypedNumber { kind, .. } => Some(DataType::Elementary(kind)),
        Literal::TypedTruth { kind, .. } => Some(DataType::Elementary(kind)),
    }
}

/// A number, or what a minus sign before it makes of it.
pub fn negated(minus: bool, value: i128) -> i128
    requires above { neg_ℤ (pos (2 ^ 64)) <ℤ value }
    ensures value { result ≡ negated minus value }
{
    if minus { -value } else { value }
}

/// The value of a literal.
pub fn literal_value(literal: Literal) -> i128
    ensures value { result ≡ literal_value literal }
    ensures above { neg_ℤ (pos (2 ^ 64)) <ℤ result }
{
    match literal {
        Literal::Number { value, .. } => i128::from(value),
        Literal::Truth { value, .. } => i128::from(value),
        Literal::TypedNumber { minus, value, .. } => negated(minus.is_some(), i128::from(value)),
        Literal::TypedTruth { value, .. } => i128::from(value),
    }
}

// Whether a number is a value of a type: it is none of an enumeration, and of a type that is unknown nothing is said.
fn is_number_of(kind: DataType, value: i128) -> bool
    ensures { result ≡ is_number_of kind value }
{
    match kind {
        DataType::Elementary(kind) => is_value_of(value, kind),
        DataType::Enumeration(_) | DataType::Unknown => false,
    }
}

/// Whether a literal, with a minus sign before it or not, is a value of a type.
pub fn is_literal_of(kind: DataType, minus: bool, literal: Literal) -> bool
    ensures { result ≡ is_literal_of kind minus literal }
{
    match literal {
        Literal::Truth { .. } => true,
        Literal::TypedTruth { kind, .. } => is_bool(DataType::Elementary(kind)),
        Literal::Number { .. } | Literal::TypedNumber { .. } => {
            is_number_of(kind, negated(minus, literal_value(literal)))
        }
    }
}

/// Whether a minus sign before a literal is part of it.
pub fn is_number(literal: Literal) -> bool
    ensures { result ≡ is_number literal }
{
    matches!(
        literal,
        Literal::Number { .. } | Literal::TypedNumber { .. }
    )
}

/// The place of a literal's first token.
pub fn place_of_literal(literal: Literal) -> usize
    ensures { result ≡ place_of_literal literal }
{
    match literal {
        Literal::Number { at, .. } => at,
        Literal::Truth { at, .. } => at,
        Literal::TypedNumber { at, .. } => at,
        Literal::TypedTruth { at, .. } => at,
    }
}
