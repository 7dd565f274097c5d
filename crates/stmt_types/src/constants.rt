// Constant expressions.
ghost use Rattle.std.specs.Prelude.{◌≡◌, IfOk};
ghost use Rattle.source_tree.specs.SyntaxView.{tree_view, links_view};
ghost use Rattle.typing.specs.Constants.{is_value, means_value, is_constant, are_constant, constant_value};

use expr_types::type_expr;
use interpreter::evaluate;
use plc_types::{DataType, Value};
use source_tree::{Expr, Link};
use std::alloc::{AllocError, Global};
use typing::{Meaning, Place, Scope};

fn is_value(place: Place) -> bool
    ensures { result ≡ is_value place }
{
    match place {
        Place::Cell(_) => false,
        Place::Value(_) => true,
    }
}

fn means_value(meaning: Option<Meaning>) -> bool
    ensures { result ≡ means_value meaning }
{
    match meaning {
        None => false,
        Some(meaning) => is_value(meaning.place),
    }
}

// Whether an expression is one over literals, values of enumerations and constants alone.
#[cycle(is_constant)]
fn is_constant<S: Scope>(scope: &S, expr: &Expr) -> bool
    ensures { result ≡ is_constant (S.means scope.now) (tree_view expr.now) }
{
    match expr {
        Expr::Literal(_) => true,
        Expr::Path(path) => means_value(scope.meaning(path)),
        Expr::Enumerator(_, value) => means_value(scope.value(value)),
        Expr::Paren(_, inner) => is_constant(scope, inner),
        Expr::Unary(_, _, operand) => is_constant(scope, operand),
        Expr::Chain(first, links) => is_constant(scope, first) && are_constant(scope, links),
        Expr::Call(_, _, _) => false,
    }
}

#[cycle(is_constant)]
fn are_constant<S: Scope>(scope: &S, links: &[Link]) -> bool
    ensures { result ≡ are_constant (S.means scope.now) (links_view links.now) }
{
    for link in links {
        if !is_constant(scope, &link.right) {
            return false;
        }
    }
    true
}

/// The value of a constant expression where a type is expected: there is one where its evaluation meets no fault.
pub fn constant_value<S: Scope>(
    alloc: Global,
    scope: &S,
    expected: Option<DataType>,
    expr: &Expr,
) -> Result<Option<Value>, AllocError>
    ensures { IfOk result (λ value. value ≡ constant_value (S.means scope.now) expected (tree_view expr.now)) }
{
    if !is_constant(scope, expr) {
        return Ok(None);
    }
    let typed = type_expr(alloc, scope, expected, expr)?;
    let given = evaluate(&typed, &[], &[]);
    if given.fault {
        Ok(None)
    } else {
        Ok(Some(given.value))
    }
}
