// The POUs that typed statements use.
ghost use Rattle.std.specs.Prelude.{◌≡◌, ◌++◌, IfOk, OnOk};
ghost use Rattle.program_tree.specs.View.{expr_view, operands_view, arguments_view, transitions_view, stmt_view, stmts_view, choices_view, entries_view, actions_view};
ghost use Rattle.running_pous.specs.Uses.{uses_in, uses_in_operands, uses_in_all, uses_of_transitions, uses_of, uses_of_all, uses_of_choices, uses_of_entries, uses_of_action, uses_of_actions};

use program_tree::{
    Operand, TypedAction, TypedArm, TypedEntry, TypedExpr, TypedStmt, TypedTransition,
};
use std::alloc::{AllocError, Global};

// Appends what an expression uses.
#[cycle(append_uses_in)]
fn append_uses_in(expr: &TypedExpr, uses: &mut Vec<usize>) -> Result<(), AllocError>
    ensures { OnOk result (uses.new.items ≡ uses.old.items ++ uses_in (expr_view expr.now)) }
{
    match expr {
        TypedExpr::Number(_) | TypedExpr::Cell(_) => Ok(()),
        TypedExpr::Unary(_, _, inner) => append_uses_in(inner, uses),
        TypedExpr::Chain(first, operands) => {
            append_uses_in(first, uses)?;
            append_in_operands(operands, uses)
        }
        TypedExpr::CallStandard(_, _, operands) => append_in_all(operands, uses),
        TypedExpr::CallFunction(function, inputs) => {
            uses.push(*function)?;
            append_in_all(inputs, uses)
        }
    }
}

// Appends what the operands of a chain use.
#[cycle(append_uses_in)]
fn append_in_operands(operands: &[Operand], uses: &mut Vec<usize>) -> Result<(), AllocError>
    ensures { OnOk result (uses.new.items ≡ uses.old.items ++ uses_in_operands (operands_view operands.now)) }
{
    for operand in operands {
        append_uses_in(&operand.right, uses)?;
    }
    Ok(())
}

// Appends what the operands or inputs of a call use.
#[cycle(append_uses_in)]
fn append_in_all(list: &[TypedExpr], uses: &mut Vec<usize>) -> Result<(), AllocError>
    ensures { OnOk result (uses.new.items ≡ uses.old.items ++ uses_in_all (arguments_view list.now)) }
{
    for expr in list {
        append_uses_in(expr, uses)?;
    }
    Ok(())
}

// Appends what the transitions of a chart use.
fn append_in_transitions(
    transitions: &[TypedTransition],
    uses: &mut Vec<usize>,
) -> Result<(), AllocError>
    ensures { OnOk result (uses.new.items ≡ uses.old.items ++ uses_of_transitions (transitions_view transitions.now)) }
{
    for transition in transitions {
        append_uses_in(&transition.condition, uses)?;
    }
    Ok(())
}

// Appends what a statement uses.
#[cycle(append_uses)]
fn append_in_stmt(stmt: &TypedStmt, uses: &mut Vec<usize>) -> Result<(), AllocError>
    ensures { OnOk result (uses.new.items ≡ uses.old.items ++ uses_of (stmt_view stmt.now)) }
{
    match stmt {
        TypedStmt::Assign(_, expr) => append_uses_in(expr, uses),
        TypedStmt::CallBlock { block, .. } => {
            uses.push(*block)?;
            Ok(())
        }
        TypedStmt::If(arms, other) => {
            append_in_arms(arms, uses)?;
            append_uses(other, uses)
        }
        TypedStmt::Case(_, selector, entries, other) => {
            append_uses_in(selector, uses)?;
            append_in_entries(entries, uses)?;
            append_uses(other, uses)
        }
        TypedStmt::For(turns, body) => {
            if turns.count == 0 {
                Ok(())
            } else {
                append_uses(body, uses)
            }
        }
        TypedStmt::Chart(_, actions, transitions) => {
            append_in_actions(actions, uses)?;
            append_in_transitions(transitions, uses)
        }
        TypedStmt::Exit | TypedStmt::Return => Ok(()),
        TypedStmt::Body(body) => append_uses(body, uses),
    }
}

// Appends what statements use.
#[cycle(append_uses)]
fn append_uses(list: &[TypedStmt], uses: &mut Vec<usize>) -> Result<(), AllocError>
    ensures { OnOk result (uses.new.items ≡ uses.old.items ++ uses_of_all (stmts_view list.now)) }
{
    for stmt in list {
        append_in_stmt(stmt, uses)?;
    }
    Ok(())
}

// Appends what the arms of an IF use.
#[cycle(append_uses)]
fn append_in_arms(arms: &[TypedArm], uses: &mut Vec<usize>) -> Result<(), AllocError>
    ensures { OnOk result (uses.new.items ≡ uses.old.items ++ uses_of_choices (choices_view arms.now)) }
{
    for arm in arms {
        append_uses_in(&arm.condition, uses)?;
        append_uses(&arm.body, uses)?;
    }
    Ok(())
}

// Appends what the entries of a CASE use.
#[cycle(append_uses)]
fn append_in_entries(entries: &[TypedEntry], uses: &mut Vec<usize>) -> Result<(), AllocError>
    ensures { OnOk result (uses.new.items ≡ uses.old.items ++ uses_of_entries (entries_view entries.now)) }
{
    for entry in entries {
        append_uses(&entry.body, uses)?;
    }
    Ok(())
}

// Appends what an action uses: nothing where no step names it and it has no latch.
#[cycle(append_uses)]
fn append_in_action(action: &TypedAction, uses: &mut Vec<usize>) -> Result<(), AllocError>
    ensures { OnOk result (uses.new.items ≡ uses.old.items ++ uses_of_action action.now.latch action.now.associations.items (uses_of_all (stmts_view action.now.body.items))) }
{
    if action.latch.is_none() && action.associations.is_empty() {
        return Ok(());
    }
    append_uses(&action.body, uses)
}

// Appends what the actions of a chart use.
#[cycle(append_uses)]
fn append_in_actions(actions: &[TypedAction], uses: &mut Vec<usize>) -> Result<(), AllocError>
    ensures { OnOk result (uses.new.items ≡ uses.old.items ++ uses_of_actions (actions_view actions.now)) }
{
    for action in actions {
        append_in_action(action, uses)?;
    }
    Ok(())
}

/// What a body uses.
pub fn uses_of(alloc: Global, body: &[TypedStmt]) -> Result<Vec<usize>, AllocError>
    ensures { IfOk result (λ uses. uses.items ≡ uses_of_all (stmts_view body.now)) }
{
    let mut uses = Vec::new(alloc);
    append_uses(body, &mut uses)?;
    Ok(uses)
}
