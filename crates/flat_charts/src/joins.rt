// Operators between operands.
ghost use Rattle.std.specs.Prelude.{◌≡◌, ◌∷◌, ◌++◌, [], map, IfOk, OnOk};
ghost use Rattle.program_tree.specs.Tree.{chain};
ghost use Rattle.program_tree.specs.View.{expr_view, operand_view, operands_view, operands_of};
ghost use Rattle.flat_form.specs.FlatCharts.{negated, both, joining, joined_to};

use plc_types::{Elementary, Operator, UnaryOperator};
use program_tree::{Operand, TypedExpr};
use std::alloc::{AllocError, Global};

/// An operator between two operands.
pub fn joined(
    alloc: Global,
    left: TypedExpr,
    operator: Operator,
    kind: Elementary,
    right: TypedExpr,
) -> Result<TypedExpr, AllocError>
    ensures { IfOk result (λ e. expr_view e ≡ chain (expr_view left) (operands_of ((operator, kind, expr_view right) ∷ []))) }
{
    let mut operands = Vec::new(alloc);
    operands.push(Operand {
        operator,
        kind,
        right,
    })?;
    chain(alloc, left, operands)
}

/// Operands behind the first.
pub fn chain(
    alloc: Global,
    first: TypedExpr,
    operands: Vec<Operand>,
) -> Result<TypedExpr, AllocError>
    ensures { IfOk result (λ e. expr_view e ≡ chain (expr_view first) (operands_of (map operand_view operands.items))) }
{
    Ok(TypedExpr::Chain(Box::new(alloc, first)?, operands))
}

/// Operands behind the first, or the first alone where there are none.
pub fn joined_to(
    alloc: Global,
    first: TypedExpr,
    operands: Vec<Operand>,
) -> Result<TypedExpr, AllocError>
    ensures { IfOk result (λ e. expr_view e ≡ joined_to (expr_view first) (operands_view operands.items)) }
{
    if operands.is_empty() {
        return Ok(first);
    }
    chain(alloc, first, operands)
}

/// One more operand of BOOL.
pub fn put_operand(
    operands: &mut Vec<Operand>,
    operator: Operator,
    right: TypedExpr,
) -> Result<(), AllocError>
    ensures { OnOk result (map operand_view operands.new.items ≡ map operand_view operands.old.items ++ joining operator (expr_view right) ∷ []) }
{
    operands.push(Operand {
        operator,
        kind: Elementary::Bool,
        right,
    })?;
    Ok(())
}

/// NOT.
pub fn negated(alloc: Global, expr: TypedExpr) -> Result<TypedExpr, AllocError>
    ensures { IfOk result (λ e. expr_view e ≡ negated (expr_view expr)) }
{
    let inner = Box::new(alloc, expr)?;
    Ok(TypedExpr::Unary(UnaryOperator::Not, Elementary::Bool, inner))
}

/// The first, and not the second.
pub fn without(alloc: Global, expr: TypedExpr, other: TypedExpr) -> Result<TypedExpr, AllocError>
    ensures { IfOk result (λ e. expr_view e ≡ both (expr_view expr) (negated (expr_view other))) }
{
    let not = negated(alloc, other)?;
    joined(alloc, expr, Operator::And, Elementary::Bool, not)
}
