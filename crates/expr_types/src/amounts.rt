// The amounts of shifts: numbers, with a minus sign before them or not.
ghost use Rattle.std.specs.Prelude.{◌≡◌};
ghost use Rattle.source_tree.specs.SyntaxView.{tree_view};
ghost use Rattle.typing.specs.Typing.{signed_number, number_in, is_amount_value, is_amount, amount_value};

use plc_types::UnaryOperator;
use source_tree::Expr;
use synthesized_types::{is_bool, is_number, literal_value, negated, type_of};
use typing::Scope;

// The value of a number behind a minus sign.
fn signed_number(operator: UnaryOperator, operand: &Expr) -> Option<i128>
    ensures { result ≡ signed_number operator (tree_view operand.now) }
{
    match (operator, operand) {
        (UnaryOperator::Minus, Expr::Literal(literal)) if is_number(*literal) => {
            Some(negated(true, literal_value(*literal)))
        }
        _ => None,
    }
}

/// The value of a number, with a minus sign before it or not.
pub fn number_in(expr: &Expr) -> Option<i128>
    ensures { result ≡ number_in (tree_view expr.now) }
{
    match expr {
        Expr::Literal(literal) if is_number(*literal) => Some(literal_value(*literal)),
        Expr::Unary(operator, _, operand) => signed_number(*operator, operand),
        _ => None,
    }
}

fn is_amount_value(value: Option<i128>) -> bool
    ensures { result ≡ is_amount_value value }
{
    match value {
        None => false,
        Some(value) => 0 <= value && value <= 64,
    }
}

/// Whether an expression is a number from 0 to 64 that is no BOOL.
pub fn is_amount<S: Scope>(scope: &S, expr: &Expr) -> bool
    ensures { result ≡ is_amount (S.means scope.now) (tree_view expr.now) }
{
    is_amount_value(number_in(expr)) && !is_bool(type_of(scope, None, expr))
}

/// The amount that a number is, 0 where it is none.
pub fn amount_value(value: Option<i128>) -> u8
    ensures { result ≡ amount_value value }
{
    match value {
        None => 0,
        Some(amount) => {
            if 0 <= amount && amount <= 64 {
                amount as u8
            } else {
                0
            }
        }
    }
}
