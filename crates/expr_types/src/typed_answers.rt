// Typed calls of FUNCTIONs.
ghost use Rattle.std.specs.Prelude.{◌≡◌, IfOk, replicate, slice_set, pos};
ghost use Rattle.source_tree.specs.SyntaxView.{name_view, arguments_view};
ghost use Rattle.program_tree.specs.Tree.{number};
ghost use Rattle.program_tree.specs.View.{expr_view, exprs_view, arguments_view as operands_view};
ghost use Rattle.typing.specs.Typed.{placed, typed_answer, typed_given};

use crate::answers::{expected_by, place_for};
use crate::typed_expressions::type_expr;
use program_tree::TypedExpr;
use source_tree::{Argument, Name};
use std::alloc::{AllocError, Global};
use typing::{Scope, Signature};

// A 0 for each input.
fn zeros(alloc: Global, count: usize) -> Result<Vec<TypedExpr>, AllocError>
    ensures { IfOk result (λ list. exprs_view list.items ≡ replicate count (number (pos 0))) }
{
    let mut list = Vec::with_capacity(alloc, count)?;
    for _ in 0..count {
        list.push(TypedExpr::Number(0))?;
    }
    Ok(list)
}

// Puts a value at a place, where it is one of the list.
fn put(list: &mut [TypedExpr], place: usize, value: TypedExpr)
    ensures { exprs_view list.new ≡ slice_set (exprs_view list.old) place (expr_view value) }
{
    if place < list.len() {
        list[place] = value;
    }
}

/// The typed expression that a call of what may be a FUNCTION stands for.
#[cycle(type_expr)]
pub(crate) fn type_answer<S: Scope>(
    alloc: Global,
    scope: &S,
    name: &Name,
    arguments: &[Argument],
) -> Result<TypedExpr, AllocError>
    ensures { IfOk result (λ e. expr_view e ≡ typed_answer ((S.means scope.now).signature (name_view name.now).text) (λ s. typed_given (S.means scope.now) s 0 (arguments_view arguments.now))) }
{
    let Some(signature) = scope.signature(name) else {
        return Ok(TypedExpr::Number(0));
    };
    let values = type_given(alloc, scope, signature, arguments)?;
    Ok(TypedExpr::CallFunction(signature.number, values))
}

// The values of a FUNCTION's inputs.
#[cycle(type_expr)]
fn type_given<S: Scope>(
    alloc: Global,
    scope: &S,
    signature: Signature,
    arguments: &[Argument],
) -> Result<Vec<TypedExpr>, AllocError>
    ensures { IfOk result (λ values. exprs_view values.items ≡ placed (replicate signature.count (number (pos 0))) (typed_given (S.means scope.now) signature 0 (arguments_view arguments.now))) }
{
    let mut values = zeros(alloc, signature.count)?;
    for (place, argument) in arguments.iter().enumerate() {
        let to = place_for(scope, signature, place, &argument.name);
        let expected = expected_by(scope.port(signature.function, to));
        let value = type_expr(alloc, scope, expected, &argument.value)?;
        put(&mut values, to, value);
    }
    Ok(values)
}
