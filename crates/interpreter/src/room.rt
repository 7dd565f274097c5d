// Room for calls and charts.
ghost use Rattle.std.specs.Prelude.{◌≡◌, ◌+◌, length, OnOk};
ghost use Rattle.program_tree.specs.View.{stmt_view, stmts_view, choices_view, entries_view, actions_view, all_called_view};
ghost use Rattle.meaning.specs.Room.{markings_in, markings_in_all, markings_in_choices, markings_in_entries, markings_in_actions, room_for};

use plc_types::Value;
use program_tree::{Called, TypedAction, TypedArm, TypedEntry, TypedStmt};
use std::alloc::AllocError;

/// Lengthens a stack by the room that statements take, and the POUs that they may call.
pub fn add_room(
    called: &[Called],
    body: &[TypedStmt],
    stack: &mut Vec<Value>,
) -> Result<(), AllocError>
    ensures { OnOk result (length stack.new.items ≡ length stack.old.items + room_for (all_called_view called.now) (length called.now) + markings_in_all (stmts_view body.now)) }
{
    for callee in called {
        match callee {
            Called::Block(body) => add_markings_of_all(body, stack)?,
            Called::Function(frame, body) => {
                add_cells(frame.start.len(), stack)?;
                add_markings_of_all(body, stack)?;
            }
        }
    }
    add_markings_of_all(body, stack)
}

fn add_cells(count: usize, stack: &mut Vec<Value>) -> Result<(), AllocError>
    ensures { OnOk result (length stack.new.items ≡ length stack.old.items + count) }
{
    for _ in 0..count {
        stack.push(0)?;
    }
    Ok(())
}

#[cycle(room)]
fn add_markings_of_all(list: &[TypedStmt], stack: &mut Vec<Value>) -> Result<(), AllocError>
    ensures { OnOk result (length stack.new.items ≡ length stack.old.items + markings_in_all (stmts_view list.now)) }
{
    for stmt in list {
        add_markings(stmt, stack)?;
    }
    Ok(())
}

#[cycle(room)]
fn add_markings(stmt: &TypedStmt, stack: &mut Vec<Value>) -> Result<(), AllocError>
    ensures { OnOk result (length stack.new.items ≡ length stack.old.items + markings_in (stmt_view stmt.now)) }
{
    match stmt {
        TypedStmt::Assign(_, _)
        | TypedStmt::CallBlock { .. }
        | TypedStmt::Exit
        | TypedStmt::Return => Ok(()),
        TypedStmt::If(arms, other) => {
            add_markings_of_arms(arms, stack)?;
            add_markings_of_all(other, stack)
        }
        TypedStmt::Case(_, _, entries, other) => {
            add_markings_of_entries(entries, stack)?;
            add_markings_of_all(other, stack)
        }
        TypedStmt::For(_, body) | TypedStmt::Body(body) => add_markings_of_all(body, stack),
        TypedStmt::Chart(steps, actions, _) => {
            for _step in steps {
                add_cells(4, stack)?;
            }
            add_markings_of_actions(actions, stack)
        }
    }
}

#[cycle(room)]
fn add_markings_of_arms(arms: &[TypedArm], stack: &mut Vec<Value>) -> Result<(), AllocError>
    ensures { OnOk result (length stack.new.items ≡ length stack.old.items + markings_in_choices (choices_view arms.now)) }
{
    for arm in arms {
        add_markings_of_all(&arm.body, stack)?;
    }
    Ok(())
}

#[cycle(room)]
fn add_markings_of_entries(entries: &[TypedEntry], stack: &mut Vec<Value>) -> Result<(), AllocError>
    ensures { OnOk result (length stack.new.items ≡ length stack.old.items + markings_in_entries (entries_view entries.now)) }
{
    for entry in entries {
        add_markings_of_all(&entry.body, stack)?;
    }
    Ok(())
}

#[cycle(room)]
fn add_markings_of_actions(
    actions: &[TypedAction],
    stack: &mut Vec<Value>,
) -> Result<(), AllocError>
    ensures { OnOk result (length stack.new.items ≡ length stack.old.items + markings_in_actions (actions_view actions.now)) }
{
    for action in actions {
        add_markings_of_all(&action.body, stack)?;
    }
    Ok(())
}
