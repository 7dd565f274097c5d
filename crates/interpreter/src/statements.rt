// What statements do to the cells of their owner.
ghost use Rattle.std.specs.Prelude.{◌≡◌, ◌≤◌, ◌+◌, ◌*◌, ◌^◌, length};
ghost use Rattle.program_tree.specs.View.{stmt_view, stmts_view};
ghost use Rattle.meaning.specs.Effects.{effect_of, effect_of_all};
ghost use Rattle.meaning.specs.Room.{markings_in, markings_in_all};
ghost use Rattle.interpreter.specs.Outcomes.{effect_with};
ghost use Rattle.interpreter.specs.Scopes.{callees_here, room_here};

use crate::cells::{add_fault, store};
use crate::charts::run_chart;
use crate::evaluation::evaluate_over;
use crate::outcome::{Outcome, behind_body};
use crate::scope::Scope;
use crate::selection::{run_arms, run_entries};
use crate::turns::run_turns;
use plc_types::Value;
use program_tree::{Called, TypedStmt};

/// Runs statements of a POU over the cells of its owner, up to the first that leaves the list. The calls and charts in them have room
/// on the stack.
#[cycle(run)]
pub fn run_all(
    list: &[TypedStmt],
    scope: &Scope<'_>,
    cells: &mut [Value],
    stack: &mut [Value],
) -> Outcome
    requires known { scope.now.below ≤ length scope.now.called.now }
    requires bound { scope.now.base + (scope.now.below + 1) * 2 ^ 64 ≤ 2 ^ 128 }
    requires room { room_here scope.now + markings_in_all (stmts_view list.now) ≤ length stack.old }
    ensures effect { effect_with result cells.new ≡ effect_of_all (callees_here scope.now) scope.now.ranges.now scope.now.base (stmts_view list.now) cells.old }
    ensures room { length stack.new ≡ length stack.old }
{
    for stmt in list {
        let outcome = run(stmt, scope, cells, stack);
        match outcome {
            Outcome::On => {}
            Outcome::Exit | Outcome::Return => return outcome,
        }
    }
    Outcome::On
}

#[cycle(run)]
fn run(stmt: &TypedStmt, scope: &Scope<'_>, cells: &mut [Value], stack: &mut [Value]) -> Outcome
    requires known { scope.now.below ≤ length scope.now.called.now }
    requires bound { scope.now.base + (scope.now.below + 1) * 2 ^ 64 ≤ 2 ^ 128 }
    requires room { room_here scope.now + markings_in (stmt_view stmt.now) ≤ length stack.old }
    ensures effect { effect_with result cells.new ≡ effect_of (callees_here scope.now) scope.now.ranges.now scope.now.base (stmt_view stmt.now) cells.old }
    ensures room { length stack.new ≡ length stack.old }
{
    match stmt {
        TypedStmt::Assign(target, expr) => {
            let given = evaluate_over(expr, cells, scope, stack);
            add_fault(given.fault, cells);
            store(
                scope.ranges,
                scope.base + *target as u128,
                given.value,
                cells,
            );
            Outcome::On
        }
        TypedStmt::CallBlock { block, offset } => {
            run_block(*block, *offset, scope, cells, stack);
            Outcome::On
        }
        TypedStmt::If(arms, other) => run_arms(arms, other, scope, cells, stack),
        TypedStmt::Case(_, selector, entries, other) => {
            let given = evaluate_over(selector, cells, scope, stack);
            add_fault(given.fault, cells);
            run_entries(entries, other, given.value, scope, cells, stack)
        }
        TypedStmt::For(turns, body) => run_turns(body, *turns, scope, cells, stack),
        TypedStmt::Chart(steps, actions, transitions) => {
            run_chart(steps, actions, transitions, scope, cells, stack);
            Outcome::On
        }
        TypedStmt::Exit => Outcome::Exit,
        TypedStmt::Return => Outcome::Return,
        TypedStmt::Body(body) => behind_body(run_all(body, scope, cells, stack)),
    }
}

// Runs the body of a FUNCTION_BLOCK over the cells of an instance, which begin at a place of the POU's.
#[cycle(run)]
fn run_block(
    block: usize,
    offset: usize,
    scope: &Scope<'_>,
    cells: &mut [Value],
    stack: &mut [Value],
)
    requires known { scope.now.below ≤ length scope.now.called.now }
    requires bound { scope.now.base + (scope.now.below + 1) * 2 ^ 64 ≤ 2 ^ 128 }
    requires room { room_here scope.now ≤ length stack.old }
    ensures state { cells.new ≡ (callees_here scope.now).runs block scope.now.ranges.now (scope.now.base + offset) cells.old }
    ensures room { length stack.new ≡ length stack.old }
{
    if block < scope.below {
        let callee = &scope.called[block];
        if let Called::Block(body) = callee {
            let instance = Scope {
                ranges: scope.ranges,
                base: scope.base + offset as u128,
                called: scope.called,
                below: block,
            };
            run_all(body, &instance, cells, stack);
        }
    }
}
