// Typed expressions.
ghost use Rattle.std.specs.Prelude.{◌≡◌, map, IfOk, Some};
ghost use Rattle.source_tree.specs.SyntaxView.{tree_view, links_view};
ghost use Rattle.program_tree.specs.View.{expr_view, operands_view};
ghost use Rattle.typing.specs.Typed.{number_of, read_of, meaning_read, typed, typed_signed, typed_links, value_of_number, constant_of};
ghost use Rattle.typing.specs.Typing.{type_of};
ghost use Rattle.typing.specs.Judged.{negative_literal};
ghost use Rattle.synthesized_types.specs.Names.{meant};
ghost use Rattle.typing.specs.TypedStatements.{place_cell, cell_of};

use crate::expressions::negative_literal;
use crate::typed_calls::type_call;
use plc_types::{DataType, UnaryOperator, Value};
use program_tree::{Operand, TypedExpr};
use source_tree::{Expr, Link, Literal};
use std::alloc::{AllocError, Global};
use synthesized_types::{
    chain_types, literal_value, look_up, negated, next_type, or_dint, type_of, wrapped,
};
use typing::{Meaning, Place, Scope};

// A literal's number.
fn number_of(kind: DataType, minus: bool, literal: Literal) -> TypedExpr
    ensures { expr_view result ≡ number_of kind minus literal }
{
    TypedExpr::Number(wrapped(negated(minus, literal_value(literal)), kind.carrier()))
}

// A cell is read, and a constant is its value.
fn read_of(place: Place) -> TypedExpr
    ensures { expr_view result ≡ read_of place }
{
    match place {
        Place::Cell(cell) => TypedExpr::Cell(cell),
        Place::Value(value) => TypedExpr::Number(value),
    }
}

/// What a path, or the value of an enumeration, reads.
pub fn meaning_read(meaning: Option<Meaning>) -> TypedExpr
    ensures { expr_view result ≡ meaning_read meaning }
{
    match meaning {
        None => TypedExpr::Cell(0),
        Some(meaning) => read_of(meaning.place),
    }
}

fn place_cell(place: Place) -> usize
    ensures { result ≡ place_cell place }
{
    match place {
        Place::Cell(cell) => cell,
        Place::Value(_) => 0,
    }
}

/// The cell that a path stands for.
pub fn cell_of(meaning: Option<Meaning>) -> usize
    ensures { result ≡ cell_of meaning }
{
    match meaning {
        None => 0,
        Some(meaning) => place_cell(meaning.place),
    }
}

/// The number that a typed expression is, or 0 where it is none.
pub fn value_of_number(number: &TypedExpr) -> Value
    ensures { result ≡ value_of_number (expr_view number.now) }
{
    match number {
        TypedExpr::Number(value) => *value,
        TypedExpr::Cell(_) => 0,
        TypedExpr::Unary(_, _, _) => 0,
        TypedExpr::Chain(_, _) => 0,
        TypedExpr::CallStandard(_, _, _) => 0,
        TypedExpr::CallFunction(_, _) => 0,
    }
}

/// The typed expression that an expression stands for where a type is expected, or none.
#[cycle(type_expr)]
pub fn type_expr<S: Scope>(
    alloc: Global,
    scope: &S,
    expected: Option<DataType>,
    expr: &Expr,
) -> Result<TypedExpr, AllocError>
    ensures { IfOk result (λ e. expr_view e ≡ typed (S.means scope.now) expected (tree_view expr.now)) }
{
    match expr {
        Expr::Literal(literal) => {
            let kind = type_of(scope, expected, expr);
            Ok(number_of(kind, false, *literal))
        }
        Expr::Path(path) => Ok(meaning_read(scope.meaning(path))),
        Expr::Enumerator(_, value) => Ok(meaning_read(scope.value(value))),
        Expr::Paren(_, inner) => type_expr(alloc, scope, expected, inner),
        Expr::Unary(operator, _, operand) => {
            type_unary(alloc, scope, expected, *operator, operand)
        }
        Expr::Chain(first, links) => {
            let types = chain_types(scope, expected, first, links);
            let left = type_first(alloc, scope, types.kind, types.meaning, first)?;
            let operands = type_links(alloc, scope, types.kind, links)?;
            Ok(TypedExpr::Chain(Box::new(alloc, left)?, operands))
        }
        Expr::Call(name, _, arguments) => type_call(alloc, scope, expected, name, arguments),
    }
}

// What a unary operator and its operand stand for.
#[cycle(type_expr)]
fn type_unary<S: Scope>(
    alloc: Global,
    scope: &S,
    expected: Option<DataType>,
    operator: UnaryOperator,
    operand: &Expr,
) -> Result<TypedExpr, AllocError>
    ensures { IfOk result (λ e. expr_view e ≡ typed_signed (type_of (S.means scope.now) expected (tree_view operand.now)) operator (negative_literal operator (tree_view operand.now)) (typed (S.means scope.now) (Some (type_of (S.means scope.now) expected (tree_view operand.now))) (tree_view operand.now))) }
{
    let seen = look_up(scope, operand);
    let kind = or_dint(seen.synthesized.or(expected));
    match negative_literal(operator, operand) {
        Some(literal) => Ok(number_of(kind, true, literal)),
        None => {
            let inner = type_first(alloc, scope, kind, seen.meaning, operand)?;
            Ok(TypedExpr::Unary(operator, kind.carrier(), Box::new(alloc, inner)?))
        }
    }
}

// The operand that stands first, by what it stands for.
#[cycle(type_expr)]
fn type_first<S: Scope>(
    alloc: Global,
    scope: &S,
    kind: DataType,
    meaning: Option<Meaning>,
    first: &Expr,
) -> Result<TypedExpr, AllocError>
    requires { meaning ≡ meant (S.means scope.now) (tree_view first.now) }
    ensures { IfOk result (λ e. expr_view e ≡ typed (S.means scope.now) (Some kind) (tree_view first.now)) }
{
    match meaning {
        Some(meaning) => Ok(meaning_read(Some(meaning))),
        None => type_expr(alloc, scope, Some(kind), first),
    }
}

/// The value of a constant where a type is expected.
pub fn constant_of<S: Scope>(
    alloc: Global,
    scope: &S,
    kind: DataType,
    constant: &Expr,
) -> Result<Value, AllocError>
    ensures { IfOk result (λ value. value ≡ constant_of (S.means scope.now) kind (tree_view constant.now)) }
{
    let number = type_expr(alloc, scope, Some(kind), constant)?;
    Ok(value_of_number(&number))
}

// The operands that operators join to what stands before.
#[cycle(type_expr)]
fn type_links<S: Scope>(
    alloc: Global,
    scope: &S,
    kind: DataType,
    links: &[Link],
) -> Result<Vec<Operand>, AllocError>
    ensures { IfOk result (λ operands. operands_view operands.items ≡ typed_links (S.means scope.now) kind (links_view links.now)) }
{
    let mut kind = kind;
    let mut operands = Vec::with_capacity(alloc, links.len())?;
    for link in links {
        let right = type_expr(alloc, scope, Some(kind), &link.right)?;
        operands.push(Operand {
            operator: link.operator,
            kind: kind.carrier(),
            right,
        })?;
        kind = next_type(link.operator, kind);
    }
    Ok(operands)
}
