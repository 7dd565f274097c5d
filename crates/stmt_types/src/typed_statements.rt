// Typed statements.
ghost use Rattle.std.specs.Prelude.{◌≡◌, ◌++◌, map, IfOk, OnOk};
ghost use Rattle.source_tree.specs.SyntaxView.{stmt_view, stmts_view, arms_view, entries_view, else_view};
ghost use Rattle.program_tree.specs.View.{stmt_view as typed_view, stmts_view as typed_stmts_view, choices_view, entries_view as typed_entries_view};
ghost use Rattle.typing.specs.TypedStatements.{typed_stmts, typed_arms, typed_entries, typed_else, typed_list};
ghost use Rattle.typing.specs.TypedLists.{statements_for};

use crate::connections::type_invoke;
use crate::iteration::turns_of;
use crate::labels::typed_labels;
use crate::returns::can_return_all;
use expr_types::{cell_of, kind_at, type_expr, type_of};
use plc_types::DataType;
use program_tree::{TypedArm, TypedEntry, TypedStmt};
use source_tree::{Arm, Entry, Stmt};
use std::alloc::{AllocError, Global};
use typing::Scope;

// Appends the typed statements that a statement stands for; an empty one leaves nothing.
#[cycle(type_stmts)]
fn type_stmt<S: Scope>(
    alloc: Global,
    scope: &S,
    stmt: &Stmt,
    list: &mut Vec<TypedStmt>,
) -> Result<(), AllocError>
    ensures { OnOk result (map typed_view list.new.items ≡ map typed_view list.old.items ++ statements_for (S.means scope.now) (stmt_view stmt.now)) }
{
    match stmt {
        Stmt::Empty => Ok(()),
        Stmt::Assign(path, value) => {
            let target = scope.meaning(path);
            let value = type_expr(alloc, scope, kind_at(target), value)?;
            list.push(TypedStmt::Assign(cell_of(target), value))?;
            Ok(())
        }
        Stmt::Call(name, _, connections) => type_invoke(alloc, scope, name, connections, list),
        Stmt::If(arms, other) => {
            let arms = type_arms(alloc, scope, arms)?;
            let other = type_else(alloc, scope, other)?;
            list.push(TypedStmt::If(arms, other))?;
            Ok(())
        }
        Stmt::Case(selector, entries, other) => {
            let kind = type_of(scope, None, selector);
            let selector = type_expr(alloc, scope, None, selector)?;
            let entries = type_entries(alloc, scope, kind, entries)?;
            let other = type_else(alloc, scope, other)?;
            list.push(TypedStmt::Case(kind.carrier(), selector, entries, other))?;
            Ok(())
        }
        Stmt::For(iteration, body) => {
            let turns = turns_of(alloc, scope, iteration)?;
            let body = type_stmts(alloc, scope, body)?;
            list.push(TypedStmt::For(turns, body))?;
            Ok(())
        }
        Stmt::Exit(_) => {
            list.push(TypedStmt::Exit)?;
            Ok(())
        }
        Stmt::Return => {
            list.push(TypedStmt::Return)?;
            Ok(())
        }
    }
}

// The typed statements that statements stand for.
#[cycle(type_stmts)]
fn type_stmts<S: Scope>(
    alloc: Global,
    scope: &S,
    stmts: &[Stmt],
) -> Result<Vec<TypedStmt>, AllocError>
    ensures { IfOk result (λ list. typed_stmts_view list.items ≡ typed_stmts (S.means scope.now) (stmts_view stmts.now)) }
{
    let mut list = Vec::new(alloc);
    for stmt in stmts {
        type_stmt(alloc, scope, stmt, &mut list)?;
    }
    Ok(list)
}

#[cycle(type_stmts)]
fn type_arms<S: Scope>(alloc: Global, scope: &S, arms: &[Arm]) -> Result<Vec<TypedArm>, AllocError>
    ensures { IfOk result (λ list. choices_view list.items ≡ typed_arms (S.means scope.now) (arms_view arms.now)) }
{
    let mut list = Vec::new(alloc);
    for arm in arms {
        let condition = type_expr(alloc, scope, None, &arm.condition)?;
        let body = type_stmts(alloc, scope, &arm.body)?;
        list.push(TypedArm { condition, body })?;
    }
    Ok(list)
}

#[cycle(type_stmts)]
fn type_entries<S: Scope>(
    alloc: Global,
    scope: &S,
    kind: DataType,
    entries: &[Entry],
) -> Result<Vec<TypedEntry>, AllocError>
    ensures { IfOk result (λ list. typed_entries_view list.items ≡ typed_entries (S.means scope.now) kind (entries_view entries.now)) }
{
    let mut list = Vec::new(alloc);
    for entry in entries {
        let labels = typed_labels(alloc, scope, kind, &entry.labels)?;
        let body = type_stmts(alloc, scope, &entry.body)?;
        list.push(TypedEntry { labels, body })?;
    }
    Ok(list)
}

#[cycle(type_stmts)]
fn type_else<S: Scope>(
    alloc: Global,
    scope: &S,
    other: &Option<Vec<Stmt>>,
) -> Result<Vec<TypedStmt>, AllocError>
    ensures { IfOk result (λ list. typed_stmts_view list.items ≡ typed_else (S.means scope.now) (else_view other.now)) }
{
    match other {
        None => Ok(Vec::new(alloc)),
        Some(other) => type_stmts(alloc, scope, other),
    }
}

/// The typed statements of a POU or of an action: one body of its own where a RETURN leaves them. Fails where memory runs out.
pub fn type_list<S: Scope>(
    alloc: Global,
    scope: &S,
    stmts: &[Stmt],
) -> Result<Vec<TypedStmt>, AllocError>
    ensures { IfOk result (λ list. typed_stmts_view list.items ≡ typed_list (S.means scope.now) (stmts_view stmts.now)) }
{
    let list = type_stmts(alloc, scope, stmts)?;
    if can_return_all(&list) {
        Ok(vec![in alloc; TypedStmt::Body(list)]?)
    } else {
        Ok(list)
    }
}
