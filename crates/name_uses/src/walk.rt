// The names that expressions and statements use, and the FUNCTIONs that they call.
ghost use Rattle.std.specs.Prelude.{◌≡◌, ◌++◌, OnOk};
ghost use Rattle.source_tree.specs.SyntaxView.{tree_view, links_view, initial_view, label_view, labels_view, iteration_view, arguments_view, connection_view, connections_view, stmt_view, stmts_view, arms_view, entries_view};
ghost use Rattle.naming.specs.Broken.{in_tree, in_links, in_label, in_labels, in_step, in_iteration, in_arguments, in_connection, in_connections, in_stmt, in_stmts, in_arms, in_entries};
ghost use Rattle.naming.specs.Circles.{calls_in, calls_in_links, calls_in_arguments, calls_in_step, calls_in_iteration, calls_in_connection, calls_in_connections, calls_in_stmt, calls_in_stmts, calls_in_arms, calls_in_entries};
ghost use Rattle.pou_scope.specs.NamesView.{file_in, pou_in};
ghost use Rattle.rules.specs.Outcomes.{outcome_of, both};

use crate::scope::Scope;
use naming::{Callee, append_called};
use pou_scope::instance_of;
use rules::Outcome;
use source_tree::{Argument, Arm, Connection, Entry, Expr, Iteration, Label, Link, Stmt};
use std::alloc::AllocError;
use use_numbers::UseNumbers;

/// Keeps what an expression breaks and the numbers of its uses of names, and appends the FUNCTIONs that it calls.
#[cycle(walk_expr)]
#[tactic(auto, using(rules::proofs::Outcomes::both_on, rules::proofs::Outcomes::both_ok))]
pub fn walk_expr(
    scope: &Scope<'_, '_>,
    expr: &Expr,
    outcome: &mut Outcome,
    numbers: &mut UseNumbers,
    calls: &mut Vec<usize>,
) -> Result<(), AllocError>
    ensures judged { OnOk result (outcome.new ≡ both outcome.old (outcome_of (in_tree (file_in scope.now.names) (pou_in scope.now.names) (tree_view expr.now)))) }
    ensures calls { OnOk result (calls.new.items ≡ calls.old.items ++ calls_in (file_in scope.now.names) (tree_view expr.now)) }
{
    match expr {
        Expr::Literal(_) => Ok(()),
        Expr::Path(path) => {
            *outcome = outcome.and(scope.path(numbers, path));
            Ok(())
        }
        Expr::Enumerator(kind, value) => {
            *outcome = outcome.and(scope.enumerator(numbers, kind, value));
            Ok(())
        }
        Expr::Paren(_, inner) => walk_expr(scope, inner, outcome, numbers, calls),
        Expr::Unary(_, _, inner) => walk_expr(scope, inner, outcome, numbers, calls),
        Expr::Chain(left, links) => {
            walk_expr(scope, left, outcome, numbers, calls)?;
            walk_links(scope, links, outcome, numbers, calls)
        }
        Expr::Call(function, _, arguments) => {
            let callee = scope.callee(numbers, function);
            *outcome = outcome.and(scope.called(callee, function));
            append_called(calls, callee)?;
            walk_arguments(scope, callee, arguments, outcome, numbers, calls)
        }
    }
}

// Keeps what operands break, and appends the FUNCTIONs that they call.
#[cycle(walk_expr)]
#[tactic(auto, using(rules::proofs::Outcomes::both_on, rules::proofs::Outcomes::both_ok))]
fn walk_links(
    scope: &Scope<'_, '_>,
    links: &[Link],
    outcome: &mut Outcome,
    numbers: &mut UseNumbers,
    calls: &mut Vec<usize>,
) -> Result<(), AllocError>
    ensures judged { OnOk result (outcome.new ≡ both outcome.old (outcome_of (in_links (file_in scope.now.names) (pou_in scope.now.names) (links_view links.now)))) }
    ensures calls { OnOk result (calls.new.items ≡ calls.old.items ++ calls_in_links (file_in scope.now.names) (links_view links.now)) }
{
    for link in links {
        walk_expr(scope, &link.right, outcome, numbers, calls)?;
    }
    Ok(())
}

// Keeps what the arguments of a call break, which calls this, and appends the FUNCTIONs that they call.
#[cycle(walk_expr)]
#[tactic(auto, using(rules::proofs::Outcomes::both_on, rules::proofs::Outcomes::both_ok))]
fn walk_arguments(
    scope: &Scope<'_, '_>,
    callee: Callee,
    arguments: &[Argument],
    outcome: &mut Outcome,
    numbers: &mut UseNumbers,
    calls: &mut Vec<usize>,
) -> Result<(), AllocError>
    ensures judged { OnOk result (outcome.new ≡ both outcome.old (outcome_of (in_arguments (file_in scope.now.names) (pou_in scope.now.names) callee (arguments_view arguments.now)))) }
    ensures calls { OnOk result (calls.new.items ≡ calls.old.items ++ calls_in_arguments (file_in scope.now.names) (arguments_view arguments.now)) }
{
    for argument in arguments {
        *outcome = outcome.and(scope.argument_name(numbers, callee, &argument.name));
        walk_expr(scope, &argument.value, outcome, numbers, calls)?;
    }
    Ok(())
}

// A label. Keeps the numbers of its names.
#[tactic(auto, using(rules::proofs::Outcomes::outcome_and))]
fn judged_label(scope: &Scope<'_, '_>, numbers: &mut UseNumbers, label: &Label) -> Outcome
    ensures { result ≡ outcome_of (in_label (file_in scope.now.names) (pou_in scope.now.names) (label_view label.now)) }
{
    let low = scope.names.constant(numbers, &label.low);
    low.and(scope.names.written(numbers, &label.high))
}

// Keeps what labels break and the numbers of their names.
#[tactic(auto, using(rules::proofs::Outcomes::both_on, rules::proofs::Outcomes::both_ok))]
fn walk_labels(
    scope: &Scope<'_, '_>,
    labels: &[Label],
    outcome: &mut Outcome,
    numbers: &mut UseNumbers,
)
    ensures { outcome.new ≡ both outcome.old (outcome_of (in_labels (file_in scope.now.names) (pou_in scope.now.names) (labels_view labels.now))) }
{
    for label in labels {
        *outcome = outcome.and(judged_label(scope, numbers, label));
    }
}

// Keeps what the step of a FOR breaks, and appends the FUNCTIONs that it calls.
#[tactic(auto, using(rules::proofs::Outcomes::both_on, rules::proofs::Outcomes::both_ok))]
fn walk_step(
    scope: &Scope<'_, '_>,
    step: &Option<Expr>,
    outcome: &mut Outcome,
    numbers: &mut UseNumbers,
    calls: &mut Vec<usize>,
) -> Result<(), AllocError>
    ensures judged { OnOk result (outcome.new ≡ both outcome.old (outcome_of (in_step (file_in scope.now.names) (pou_in scope.now.names) (initial_view step.now)))) }
    ensures calls { OnOk result (calls.new.items ≡ calls.old.items ++ calls_in_step (file_in scope.now.names) (initial_view step.now)) }
{
    match step {
        Some(step) => walk_expr(scope, step, outcome, numbers, calls),
        None => Ok(()),
    }
}

// Keeps what stands between FOR and DO breaks, and appends the FUNCTIONs that it calls.
#[tactic(auto, using(rules::proofs::Outcomes::both_on, rules::proofs::Outcomes::both_ok))]
fn walk_iteration(
    scope: &Scope<'_, '_>,
    iteration: &Iteration,
    outcome: &mut Outcome,
    numbers: &mut UseNumbers,
    calls: &mut Vec<usize>,
) -> Result<(), AllocError>
    ensures judged { OnOk result (outcome.new ≡ both outcome.old (outcome_of (in_iteration (file_in scope.now.names) (pou_in scope.now.names) (iteration_view iteration.now)))) }
    ensures calls { OnOk result (calls.new.items ≡ calls.old.items ++ calls_in_iteration (file_in scope.now.names) (iteration_view iteration.now)) }
{
    *outcome = outcome.and(scope.control(numbers, &iteration.control));
    walk_expr(scope, &iteration.first, outcome, numbers, calls)?;
    walk_expr(scope, &iteration.last, outcome, numbers, calls)?;
    walk_step(scope, &iteration.step, outcome, numbers, calls)
}

// Keeps what a connection of a call of a block breaks, and appends the FUNCTIONs that it calls.
#[tactic(auto, using(rules::proofs::Outcomes::both_on, rules::proofs::Outcomes::both_ok))]
fn walk_connection(
    scope: &Scope<'_, '_>,
    block: Option<usize>,
    connection: &Connection,
    outcome: &mut Outcome,
    numbers: &mut UseNumbers,
    calls: &mut Vec<usize>,
) -> Result<(), AllocError>
    ensures judged { OnOk result (outcome.new ≡ both outcome.old (outcome_of (in_connection (file_in scope.now.names) (pou_in scope.now.names) block (connection_view connection.now)))) }
    ensures calls { OnOk result (calls.new.items ≡ calls.old.items ++ calls_in_connection (file_in scope.now.names) (connection_view connection.now)) }
{
    match connection {
        Connection::Input(name, value) => {
            *outcome = outcome.and(scope.connected(numbers, block, name));
            walk_expr(scope, value, outcome, numbers, calls)
        }
        Connection::Output(name, target) => {
            *outcome = outcome.and(scope.connected(numbers, block, name));
            *outcome = outcome.and(scope.target(numbers, target));
            Ok(())
        }
    }
}

// Keeps what the connections of a call of a block break, and appends the FUNCTIONs that they call.
#[tactic(auto, using(rules::proofs::Outcomes::both_on, rules::proofs::Outcomes::both_ok))]
fn walk_connections(
    scope: &Scope<'_, '_>,
    block: Option<usize>,
    connections: &[Connection],
    outcome: &mut Outcome,
    numbers: &mut UseNumbers,
    calls: &mut Vec<usize>,
) -> Result<(), AllocError>
    ensures judged { OnOk result (outcome.new ≡ both outcome.old (outcome_of (in_connections (file_in scope.now.names) (pou_in scope.now.names) block (connections_view connections.now)))) }
    ensures calls { OnOk result (calls.new.items ≡ calls.old.items ++ calls_in_connections (file_in scope.now.names) (connections_view connections.now)) }
{
    for connection in connections {
        walk_connection(scope, block, connection, outcome, numbers, calls)?;
    }
    Ok(())
}

/// Keeps what statements break and the numbers of their uses of names, and appends the FUNCTIONs that they call.
#[cycle(walk_stmts)]
#[tactic(auto, using(rules::proofs::Outcomes::both_on, rules::proofs::Outcomes::both_ok))]
pub fn walk_stmts(
    scope: &Scope<'_, '_>,
    stmts: &[Stmt],
    outcome: &mut Outcome,
    numbers: &mut UseNumbers,
    calls: &mut Vec<usize>,
) -> Result<(), AllocError>
    ensures judged { OnOk result (outcome.new ≡ both outcome.old (outcome_of (in_stmts (file_in scope.now.names) (pou_in scope.now.names) (stmts_view stmts.now)))) }
    ensures calls { OnOk result (calls.new.items ≡ calls.old.items ++ calls_in_stmts (file_in scope.now.names) (stmts_view stmts.now)) }
{
    for stmt in stmts {
        walk_stmt(scope, stmt, outcome, numbers, calls)?;
    }
    Ok(())
}

// Keeps what a statement breaks, and appends the FUNCTIONs that it calls.
#[cycle(walk_stmts)]
#[tactic(auto, using(rules::proofs::Outcomes::both_on, rules::proofs::Outcomes::both_ok))]
fn walk_stmt(
    scope: &Scope<'_, '_>,
    stmt: &Stmt,
    outcome: &mut Outcome,
    numbers: &mut UseNumbers,
    calls: &mut Vec<usize>,
) -> Result<(), AllocError>
    ensures judged { OnOk result (outcome.new ≡ both outcome.old (outcome_of (in_stmt (file_in scope.now.names) (pou_in scope.now.names) (stmt_view stmt.now)))) }
    ensures calls { OnOk result (calls.new.items ≡ calls.old.items ++ calls_in_stmt (file_in scope.now.names) (stmt_view stmt.now)) }
{
    match stmt {
        Stmt::Empty => Ok(()),
        Stmt::Assign(target, value) => {
            *outcome = outcome.and(scope.target(numbers, target));
            walk_expr(scope, value, outcome, numbers, calls)
        }
        Stmt::Call(name, _, connections) => {
            let seen = scope.names.used(numbers, name);
            *outcome = outcome.and(scope.instance(seen, name));
            walk_connections(
                scope,
                instance_of(seen),
                connections,
                outcome,
                numbers,
                calls,
            )
        }
        Stmt::If(arms, other) => {
            walk_arms(scope, arms, outcome, numbers, calls)?;
            match other {
                Some(stmts) => walk_stmts(scope, stmts, outcome, numbers, calls),
                None => Ok(()),
            }
        }
        Stmt::Case(selector, entries, other) => {
            walk_expr(scope, selector, outcome, numbers, calls)?;
            walk_entries(scope, entries, outcome, numbers, calls)?;
            match other {
                Some(stmts) => walk_stmts(scope, stmts, outcome, numbers, calls),
                None => Ok(()),
            }
        }
        Stmt::For(iteration, body) => {
            walk_iteration(scope, iteration, outcome, numbers, calls)?;
            walk_stmts(scope, body, outcome, numbers, calls)
        }
        Stmt::Exit(_) => Ok(()),
        Stmt::Return => Ok(()),
    }
}

// Keeps what the arms of an IF break, and appends the FUNCTIONs that they call.
#[cycle(walk_stmts)]
#[tactic(auto, using(rules::proofs::Outcomes::both_on, rules::proofs::Outcomes::both_ok))]
fn walk_arms(
    scope: &Scope<'_, '_>,
    arms: &[Arm],
    outcome: &mut Outcome,
    numbers: &mut UseNumbers,
    calls: &mut Vec<usize>,
) -> Result<(), AllocError>
    ensures judged { OnOk result (outcome.new ≡ both outcome.old (outcome_of (in_arms (file_in scope.now.names) (pou_in scope.now.names) (arms_view arms.now)))) }
    ensures calls { OnOk result (calls.new.items ≡ calls.old.items ++ calls_in_arms (file_in scope.now.names) (arms_view arms.now)) }
{
    for arm in arms {
        walk_expr(scope, &arm.condition, outcome, numbers, calls)?;
        walk_stmts(scope, &arm.body, outcome, numbers, calls)?;
    }
    Ok(())
}

// Keeps what the entries of a CASE break, and appends the FUNCTIONs that they call.
#[cycle(walk_stmts)]
#[tactic(auto, using(rules::proofs::Outcomes::both_on, rules::proofs::Outcomes::both_ok))]
fn walk_entries(
    scope: &Scope<'_, '_>,
    entries: &[Entry],
    outcome: &mut Outcome,
    numbers: &mut UseNumbers,
    calls: &mut Vec<usize>,
) -> Result<(), AllocError>
    ensures judged { OnOk result (outcome.new ≡ both outcome.old (outcome_of (in_entries (file_in scope.now.names) (pou_in scope.now.names) (entries_view entries.now)))) }
    ensures calls { OnOk result (calls.new.items ≡ calls.old.items ++ calls_in_entries (file_in scope.now.names) (entries_view entries.now)) }
{
    for entry in entries {
        walk_labels(scope, &entry.labels, outcome, numbers);
        walk_stmts(scope, &entry.body, outcome, numbers, calls)?;
    }
    Ok(())
}
