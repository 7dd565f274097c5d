// Judging expressions.
ghost use Rattle.std.specs.Prelude.{◌≡◌, IfOk, Some, false};
ghost use Rattle.source_tree.specs.SyntaxView.{tree_view, links_view};
ghost use Rattle.source_tree.specs.Syntax.{unary};
ghost use Rattle.typing.specs.Typing.{kind_at, synthesized, synthesized_of_literal, or_else, or_dint, place_of_literal};
ghost use Rattle.typing.specs.Judged.{judged_literal, judged_meaning, takes_sign, negative_literal, judged, judged_condition};
ghost use Rattle.rules.specs.Outcomes.{outcome_of};
ghost use Rattle.typing.specs.Outcomes.{links_outcome};
ghost use Rattle.synthesized_types.specs.Names.{meant};

use crate::calls::judge_call;
use crate::judged::JudgedExpr;
use plc_types::{DataType, UnaryOperator};
use rules::{Outcome, Rule};
use source_tree::{Expr, Link, Literal};
use std::alloc::{AllocError, Global};
use synthesized_types::{
    chain_types, has_bits, is_bool, is_literal_of, is_number, is_unknown, kind_at, next_type,
    or_dint, place_of, place_of_literal, synthesized, synthesized_of_literal, takes,
};
use typing::{Meaning, Scope};

// A literal is a value of its type; of one whose type is unknown nothing is said.
fn judge_literal(kind: DataType, minus: bool, at: usize, literal: Literal) -> Outcome
    ensures { result ≡ outcome_of (judged_literal kind minus at literal) }
{
    if is_unknown(kind) {
        Outcome::suppressed()
    } else if is_literal_of(kind, minus, literal) {
        Outcome::ok()
    } else {
        Outcome::breaks(Rule::OutsideType, at)
    }
}

// A literal with no sign before it.
fn judge_plain(expected: Option<DataType>, literal: Literal) -> JudgedExpr
    ensures outcome { result.outcome ≡ outcome_of (judged_literal (or_dint (or_else (synthesized_of_literal literal) expected)) false (place_of_literal literal) literal) }
    ensures synthesized { result.synthesized ≡ synthesized_of_literal literal }
{
    let synthesized = synthesized_of_literal(literal);
    let kind = or_dint(synthesized.or(expected));
    JudgedExpr {
        outcome: judge_literal(kind, false, place_of_literal(literal), literal),
        synthesized,
    }
}

/// A name is whole where its declaration is.
pub fn judge_meaning(meaning: Option<Meaning>) -> Outcome
    ensures { result ≡ outcome_of (judged_meaning meaning) }
{
    match meaning {
        Some(meaning) if meaning.whole => Outcome::ok(),
        _ => Outcome::suppressed(),
    }
}

// A name that was looked up.
fn judge_name(meaning: Option<Meaning>) -> JudgedExpr
    ensures outcome { result.outcome ≡ outcome_of (judged_meaning meaning) }
    ensures synthesized { result.synthesized ≡ kind_at meaning }
{
    JudgedExpr {
        outcome: judge_meaning(meaning),
        synthesized: kind_at(meaning),
    }
}

fn takes_sign(operator: UnaryOperator, kind: DataType) -> bool
    ensures { result ≡ takes_sign operator kind }
{
    match operator {
        UnaryOperator::Minus => kind.is_integer(),
        UnaryOperator::Not => has_bits(kind),
    }
}

/// The number that is one literal with the minus sign before it, where there is one.
pub fn negative_literal(operator: UnaryOperator, operand: &Expr) -> Option<Literal>
    ensures { result ≡ negative_literal operator (tree_view operand.now) }
{
    match (operator, operand) {
        (UnaryOperator::Minus, Expr::Literal(literal)) if is_number(*literal) => Some(*literal),
        _ => None,
    }
}

/// Whether an expression is whole where a type is expected, or none, and what it breaks first; and its synthesized type, in the same walk.
#[cycle(judge_expr)]
pub fn judge_and_synthesize<S: Scope>(
    alloc: Global,
    scope: &S,
    expected: Option<DataType>,
    expr: &Expr,
) -> Result<JudgedExpr, AllocError>
    ensures outcome { IfOk result (λ j. j.outcome ≡ outcome_of (judged (S.means scope.now) expected (tree_view expr.now))) }
    ensures synthesized { IfOk result (λ j. j.synthesized ≡ synthesized (S.means scope.now) (tree_view expr.now)) }
{
    match expr {
        Expr::Literal(literal) => Ok(judge_plain(expected, *literal)),
        Expr::Path(path) => Ok(judge_name(scope.meaning(path))),
        Expr::Enumerator(_, value) => Ok(judge_name(scope.value(value))),
        Expr::Paren(_, inner) => judge_and_synthesize(alloc, scope, expected, inner),
        Expr::Unary(operator, at, operand) => {
            judge_unary(alloc, scope, expected, *operator, *at, operand)
        }
        Expr::Chain(first, links) => {
            let types = chain_types(scope, expected, first, links);
            let left = judge_first(alloc, scope, types.kind, types.meaning, first)?;
            let outcome = judge_links(alloc, scope, types.kind, left, links)?;
            Ok(JudgedExpr {
                outcome,
                synthesized: types.synthesized,
            })
        }
        Expr::Call(name, _, arguments) => judge_call(alloc, scope, expected, name, arguments),
    }
}

/// Whether an expression is whole where a type is expected, or none, and what it breaks first.
pub fn judge_expr<S: Scope>(
    alloc: Global,
    scope: &S,
    expected: Option<DataType>,
    expr: &Expr,
) -> Result<Outcome, AllocError>
    ensures { IfOk result (λ o. o ≡ outcome_of (judged (S.means scope.now) expected (tree_view expr.now))) }
{
    let judged = judge_and_synthesize(alloc, scope, expected, expr)?;
    Ok(judged.outcome)
}

// A unary operator before its operand.
#[cycle(judge_expr)]
fn judge_unary<S: Scope>(
    alloc: Global,
    scope: &S,
    expected: Option<DataType>,
    operator: UnaryOperator,
    at: usize,
    operand: &Expr,
) -> Result<JudgedExpr, AllocError>
    ensures outcome { IfOk result (λ j. j.outcome ≡ outcome_of (judged (S.means scope.now) expected (unary operator at (tree_view operand.now)))) }
    ensures synthesized { IfOk result (λ j. j.synthesized ≡ synthesized (S.means scope.now) (tree_view operand.now)) }
{
    match negative_literal(operator, operand) {
        Some(literal) => {
            let of_operand = synthesized(scope, operand);
            let kind = or_dint(of_operand.or(expected));
            Ok(JudgedExpr {
                outcome: judge_literal(kind, true, at, literal),
                synthesized: of_operand,
            })
        }
        None => {
            let inner = judge_and_synthesize(alloc, scope, expected, operand)?;
            let fits = takes_sign(operator, inner.kind(expected));
            let outcome = inner.outcome.require(fits, Rule::OperandType, at);
            Ok(JudgedExpr {
                outcome,
                synthesized: inner.synthesized,
            })
        }
    }
}

// The first operand of a chain, by what it stands for.
#[cycle(judge_expr)]
fn judge_first<S: Scope>(
    alloc: Global,
    scope: &S,
    kind: DataType,
    meaning: Option<Meaning>,
    first: &Expr,
) -> Result<Outcome, AllocError>
    requires { meaning ≡ meant (S.means scope.now) (tree_view first.now) }
    ensures { IfOk result (λ o. o ≡ outcome_of (judged (S.means scope.now) (Some kind) (tree_view first.now))) }
{
    match meaning {
        Some(meaning) => Ok(judge_meaning(Some(meaning))),
        None => {
            let judged = judge_and_synthesize(alloc, scope, Some(kind), first)?;
            Ok(judged.outcome)
        }
    }
}

// Operators behind a left operand that was judged.
#[cycle(judge_expr)]
fn judge_links<S: Scope>(
    alloc: Global,
    scope: &S,
    kind: DataType,
    left: Outcome,
    links: &[Link],
) -> Result<Outcome, AllocError>
    ensures { IfOk result (λ o. o ≡ links_outcome (S.means scope.now) kind left (links_view links.now)) }
{
    let mut kind = kind;
    let mut left = left;
    for link in links {
        let right = judge_and_synthesize(alloc, scope, Some(kind), &link.right)?;
        let fits = takes(link.operator, kind) && right.kind(Some(kind)).is_same(kind);
        left = left
            .and(right.outcome)
            .require(fits, Rule::OperandType, link.at);
        kind = next_type(link.operator, kind);
    }
    Ok(left)
}

/// A condition is BOOL.
#[tactic(auto, using(typing_laws::proofs::Judging::judging))]
pub fn judge_condition<S: Scope>(
    alloc: Global,
    scope: &S,
    rule: Rule,
    expr: &Expr,
) -> Result<Outcome, AllocError>
    ensures { IfOk result (λ o. o ≡ outcome_of (judged_condition (S.means scope.now) rule (tree_view expr.now))) }
{
    let judged = judge_and_synthesize(alloc, scope, None, expr)?;
    let fits = is_bool(judged.kind(None));
    Ok(judged.outcome.require(fits, rule, place_of(expr)))
}
