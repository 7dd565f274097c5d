// Which blocks do nothing.
ghost use Rattle.std.specs.Prelude.{◌≡◌, IfOk};
ghost use Rattle.program_tree.specs.View.{stmt_view, stmts_view, called_view, all_called_view};
ghost use Rattle.flat_form.specs.Pous.{block_body};
ghost use Rattle.flat_form.specs.Idle.{is_idle, is_idle_all, idle_in, AreIdle};

use program_tree::{Called, TypedStmt};
use std::alloc::{AllocError, Global};

/// For each POU whether a run of it does nothing, by its text alone. A FUNCTION is not run.
pub fn idle_blocks(called: &[Called], alloc: Global) -> Result<Vec<bool>, AllocError>
    ensures { IfOk result (λ idle. AreIdle idle.items (all_called_view called.now)) }
{
    let mut idle = Vec::new(alloc);
    for callee in called {
        let rests = is_idle_pou(callee, &idle);
        idle.push(rests)?;
    }
    Ok(idle)
}

/// Whether a block does nothing, by its number; what is none of the blocks does nothing.
pub fn is_idle_block(idle: &[bool], block: usize) -> bool
    ensures { result ≡ idle_in idle.now block }
{
    idle.get(block).copied().unwrap_or(true)
}

fn is_idle_pou(callee: &Called, idle: &[bool]) -> bool
    ensures { result ≡ is_idle_all (idle_in idle.now) (block_body (called_view callee.now)) }
{
    match callee {
        Called::Block(body) => is_idle_all(body, idle),
        Called::Function(_, _) => true,
    }
}

fn is_idle_all(list: &[TypedStmt], idle: &[bool]) -> bool
    ensures { result ≡ is_idle_all (idle_in idle.now) (stmts_view list.now) }
{
    for stmt in list {
        if !is_idle(stmt, idle) {
            return false;
        }
    }
    true
}

fn is_idle(stmt: &TypedStmt, idle: &[bool]) -> bool
    ensures { result ≡ is_idle (idle_in idle.now) (stmt_view stmt.now) }
{
    match stmt {
        TypedStmt::CallBlock { block, .. } => is_idle_block(idle, *block),
        _ => false,
    }
}
