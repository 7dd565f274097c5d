// How many flat statements statements become.
ghost use Rattle.std.specs.Prelude.{◌≡◌, ◌+◌, ◌*◌, ◌≤◌, IfOk};
ghost use Rattle.program_tree.specs.View.{stmt_view, stmts_view, choices_view, entries_view, action_view, actions_view, called_view, all_called_view};
ghost use Rattle.meaning.specs.Frames.{function_body};
ghost use Rattle.flat_form.specs.Pous.{block_body};
ghost use Rattle.flat_count.specs.Counts.{count_of, count_of_all, count_of_choices, count_of_entries, count_of_associated, count_of_actions, counting_here, capped, AreCounts};

use crate::count_calls::count_calls;
use crate::count_charts::{count_latches, count_moves};
use crate::counts::Counts;
use crate::leaves::{leaving, leaving_all};
use crate::sums::{count_at, count_behind, count_flag, count_turns, sum};
use program_tree::{Called, TypedAction, TypedArm, TypedEntry, TypedStmt};
use std::alloc::{AllocError, Global};

/// How many flat statements the run of each POU becomes, in order, and how many the body of each FUNCTION.
#[derive(Drop)]
pub struct PouCounts {
    pub runs: Vec<usize>,
    pub bodies: Vec<usize>,
}

/// The counts of POUs, each of which runs and calls only those before it.
pub fn count_pous(called: &[Called], alloc: Global) -> Result<PouCounts, AllocError>
    ensures { IfOk result (λ counts. AreCounts counts.runs.items counts.bodies.items (all_called_view called.now)) }
{
    let mut runs = Vec::new(alloc);
    let mut bodies = Vec::new(alloc);
    for callee in called {
        let counts = Counts {
            called,
            runs: &runs,
            bodies: &bodies,
        };
        let run = count_run(callee, &counts);
        let body = count_body(callee, &counts);
        runs.push(run)?;
        bodies.push(body)?;
    }
    Ok(PouCounts { runs, bodies })
}

fn count_run(callee: &Called, counts: &Counts<'_>) -> usize
    ensures { result ≡ capped (count_of_all (counting_here counts.now) (block_body (called_view callee.now))) }
{
    match callee {
        Called::Block(body) => count_all(body, counts),
        Called::Function(_, _) => 0,
    }
}

fn count_body(callee: &Called, counts: &Counts<'_>) -> usize
    ensures { result ≡ capped (count_of_all (counting_here counts.now) (function_body (called_view callee.now))) }
{
    match callee {
        Called::Block(_) => 0,
        Called::Function(_, body) => count_all(body, counts),
    }
}

/// How many flat statements some statements become, where the bodies of POUs become as many as are counted for them. The last is counted first,
/// since what stands behind a statement that may leave is asked for where there is any.
#[cycle(count)]
pub fn count_all(list: &[TypedStmt], counts: &Counts<'_>) -> usize
    ensures { result ≡ capped (count_of_all (counting_here counts.now) (stmts_view list.now)) }
{
    let mut total = 0;
    for index in (0..list.len()).rev() {
        let stmt = &list[index];
        let behind = count_behind(leaving(stmt), total);
        total = sum(count(stmt, counts), behind);
    }
    total
}

#[cycle(count)]
fn count(stmt: &TypedStmt, counts: &Counts<'_>) -> usize
    ensures { result ≡ capped (count_of (counting_here counts.now) (stmt_view stmt.now)) }
{
    match stmt {
        TypedStmt::Assign(_, expr) => sum(count_calls(expr, counts), 1),
        TypedStmt::CallBlock { block, .. } => count_at(counts.runs, *block),
        TypedStmt::Chart(steps, actions, transitions) => {
            let latches = count_latches(actions);
            let bodies = count_actions(actions, counts);
            let moves = count_moves(steps, transitions, counts);
            sum(latches, sum(bodies, moves))
        }
        TypedStmt::If(arms, other) => sum(count_arms(arms, counts), count_all(other, counts)),
        TypedStmt::Case(_, selector, entries, other) => {
            let value = sum(count_calls(selector, counts), 1);
            let entries = count_entries(entries, counts);
            sum(sum(value, entries), count_all(other, counts))
        }
        TypedStmt::For(turns, body) => {
            count_turns(turns.count, leaving_all(body), count_all(body, counts))
        }
        TypedStmt::Exit => 1,
        TypedStmt::Return => 1,
        TypedStmt::Body(body) => {
            let flag = count_flag(leaving_all(body).returns);
            sum(flag, count_all(body, counts))
        }
    }
}

#[cycle(count)]
fn count_arms(arms: &[TypedArm], counts: &Counts<'_>) -> usize
    ensures { result ≡ capped (count_of_choices (counting_here counts.now) (choices_view arms.now)) }
{
    let mut total = 0;
    for arm in arms {
        let condition = count_calls(&arm.condition, counts);
        let body = sum(1, count_all(&arm.body, counts));
        total = sum(total, sum(condition, body));
    }
    total
}

#[cycle(count)]
fn count_entries(entries: &[TypedEntry], counts: &Counts<'_>) -> usize
    ensures { result ≡ capped (count_of_entries (counting_here counts.now) (entries_view entries.now)) }
{
    let mut total = 0;
    for entry in entries {
        total = sum(total, sum(1, count_all(&entry.body, counts)));
    }
    total
}

#[cycle(count)]
fn count_actions(actions: &[TypedAction], counts: &Counts<'_>) -> usize
    ensures { result ≡ capped (count_of_actions (counting_here counts.now) (actions_view actions.now)) }
{
    let mut total = 0;
    for action in actions {
        total = sum(total, count_action(action, counts));
    }
    total
}

#[cycle(count)]
fn count_action(action: &TypedAction, counts: &Counts<'_>) -> usize
    ensures { result ≡ capped (count_of_associated (action_view action.now).1 (count_of_all (counting_here counts.now) (action_view action.now).2)) }
{
    if action.associations.is_empty() {
        return 0;
    }
    sum(1, count_all(&action.body, counts))
}
