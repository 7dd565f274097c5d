// Whether a RETURN leaves typed statements. The first one found settles it.
ghost use Rattle.std.specs.Prelude.{◌≡◌};
ghost use Rattle.program_tree.specs.View.{stmt_view, stmts_view, choices_view, entries_view, actions_view};
ghost use Rattle.program_tree.specs.Leaving.{can_return, can_return_all, can_return_choices, can_return_entries, can_return_actions};

use program_tree::{TypedAction, TypedArm, TypedEntry, TypedStmt};

#[cycle(can_return_all)]
fn can_return(stmt: &TypedStmt) -> bool
    ensures { result ≡ can_return (stmt_view stmt.now) }
{
    match stmt {
        TypedStmt::If(arms, other) => can_return_choices(arms) || can_return_all(other),
        TypedStmt::Case(_, _, entries, other) => {
            can_return_entries(entries) || can_return_all(other)
        }
        TypedStmt::For(_, body) => can_return_all(body),
        TypedStmt::Chart(_, actions, _) => can_return_actions(actions),
        TypedStmt::Return => true,
        TypedStmt::Assign(_, _)
        | TypedStmt::CallBlock { .. }
        | TypedStmt::Exit
        | TypedStmt::Body(_) => false,
    }
}

/// Whether a RETURN leaves statements.
#[cycle(can_return_all)]
pub(crate) fn can_return_all(list: &[TypedStmt]) -> bool
    ensures { result ≡ can_return_all (stmts_view list.now) }
{
    for stmt in list {
        if can_return(stmt) {
            return true;
        }
    }
    false
}

#[cycle(can_return_all)]
fn can_return_choices(arms: &[TypedArm]) -> bool
    ensures { result ≡ can_return_choices (choices_view arms.now) }
{
    for arm in arms {
        if can_return_all(&arm.body) {
            return true;
        }
    }
    false
}

#[cycle(can_return_all)]
fn can_return_entries(entries: &[TypedEntry]) -> bool
    ensures { result ≡ can_return_entries (entries_view entries.now) }
{
    for entry in entries {
        if can_return_all(&entry.body) {
            return true;
        }
    }
    false
}

#[cycle(can_return_all)]
fn can_return_actions(actions: &[TypedAction]) -> bool
    ensures { result ≡ can_return_actions (actions_view actions.now) }
{
    for action in actions {
        if can_return_all(&action.body) {
            return true;
        }
    }
    false
}
