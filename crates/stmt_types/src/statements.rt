// Judging statements, inside FORs whose control variables are the cells `controls`.
ghost use Rattle.std.specs.Prelude.{◌≡◌, [], IfOk};
ghost use Rattle.source_tree.specs.SyntaxView.{path_view, tree_view, stmt_view, stmts_view, arms_view, entries_view, else_view};
ghost use Rattle.typing.specs.JudgedStatements.{judged_target, judged_assign, judged_stmts};
ghost use Rattle.typing.specs.JudgedExits.{judged_exits};
ghost use Rattle.rules.specs.Judgements.{and};
ghost use Rattle.rules.specs.Outcomes.{outcome_of};
ghost use Rattle.typing.specs.Outcomes.{stmt_outcome, stmts_outcome, arms_outcome, bodies_outcome, else_outcome};

use crate::connections::judge_invoke;
use crate::exits::judge_exits;
use crate::iteration::{is_assignable, judge_turns, with_control};
use crate::selection::judge_selection;
use expr_types::{
    judge_and_synthesize, judge_condition, judge_meaning, kind_at, meaning_alone, or_dint,
};
use rules::{Outcome, Rule};
use source_tree::{Arm, Entry, Expr, Path, Stmt};
use std::alloc::{AllocError, Global};
use typing::{Meaning, Scope};

/// An own input, a constant and a control variable inside its loop are no targets.
#[tactic(auto, using(typing_laws::proofs::Judging::judging))]
pub(crate) fn judge_target(controls: &[usize], meaning: Option<Meaning>, at: usize) -> Outcome
    ensures { result ≡ outcome_of (judged_target controls.now meaning at) }
{
    judge_meaning(meaning).require(is_assignable(controls, meaning), Rule::NotAssignable, at)
}

// An assignment's value is of its target's type.
#[tactic(auto, using(typing_laws::proofs::Judging::judging))]
fn judge_assign<S: Scope>(
    alloc: Global,
    scope: &S,
    controls: &[usize],
    path: &Path,
    value: &Expr,
) -> Result<Outcome, AllocError>
    ensures { IfOk result (λ o. o ≡ outcome_of (judged_assign (S.means scope.now) controls.now (path_view path.now) (tree_view value.now))) }
{
    let meaning = scope.meaning(path);
    let expected = kind_at(meaning);
    let target = judge_target(controls, meaning, path.first.at);
    let judged = judge_and_synthesize(alloc, scope, expected, value)?;
    let fits = judged.kind(expected).is_same(or_dint(expected));
    let parts = target.and(judged.outcome);
    Ok(parts.require(fits, Rule::ValueType, path.first.at))
}

#[cycle(judge_stmts)]
fn judge_stmt<S: Scope>(
    alloc: Global,
    scope: &S,
    controls: &[usize],
    so_far: Outcome,
    stmt: &Stmt,
) -> Result<Outcome, AllocError>
    ensures { IfOk result (λ o. o ≡ stmt_outcome (S.means scope.now) controls.now so_far (stmt_view stmt.now)) }
{
    match stmt {
        Stmt::Empty | Stmt::Exit(_) | Stmt::Return => Ok(so_far),
        Stmt::Assign(path, value) => {
            let judged = judge_assign(alloc, scope, controls, path, value)?;
            Ok(so_far.and(judged))
        }
        Stmt::Call(name, _at, connections) => {
            let judged = judge_invoke(alloc, scope, controls, name, connections)?;
            Ok(so_far.and(judged))
        }
        Stmt::If(arms, other) => {
            let judged = judge_arms(alloc, scope, controls, so_far, arms)?;
            judge_else(alloc, scope, controls, judged, other)
        }
        Stmt::Case(selector, entries, other) => {
            let selection = judge_selection(alloc, scope, selector, entries)?;
            let judged = judge_bodies(alloc, scope, controls, so_far.and(selection), entries)?;
            judge_else(alloc, scope, controls, judged, other)
        }
        Stmt::For(iteration, body) => {
            let meaning = meaning_alone(alloc, scope, &iteration.control)?;
            let turns = judge_turns(alloc, scope, controls, meaning, iteration)?;
            let inner = with_control(alloc, controls, meaning)?;
            let parts = judge_all(alloc, scope, &inner, turns.judged, body)?;
            Ok(so_far.and(parts.ruled(turns.rule, iteration.at)))
        }
    }
}

// Statements behind what was judged so far.
#[cycle(judge_stmts)]
fn judge_all<S: Scope>(
    alloc: Global,
    scope: &S,
    controls: &[usize],
    so_far: Outcome,
    stmts: &[Stmt],
) -> Result<Outcome, AllocError>
    ensures { IfOk result (λ o. o ≡ stmts_outcome (S.means scope.now) controls.now so_far (stmts_view stmts.now)) }
{
    let mut judged = so_far;
    for stmt in stmts {
        judged = judge_stmt(alloc, scope, controls, judged, stmt)?;
    }
    Ok(judged)
}

#[cycle(judge_stmts)]
fn judge_arms<S: Scope>(
    alloc: Global,
    scope: &S,
    controls: &[usize],
    so_far: Outcome,
    arms: &[Arm],
) -> Result<Outcome, AllocError>
    ensures { IfOk result (λ o. o ≡ arms_outcome (S.means scope.now) controls.now so_far (arms_view arms.now)) }
{
    let mut judged = so_far;
    for arm in arms {
        let condition = judge_condition(alloc, scope, Rule::OperandType, &arm.condition)?;
        judged = judge_all(alloc, scope, controls, judged.and(condition), &arm.body)?;
    }
    Ok(judged)
}

// The statements of the entries of a CASE.
#[cycle(judge_stmts)]
fn judge_bodies<S: Scope>(
    alloc: Global,
    scope: &S,
    controls: &[usize],
    so_far: Outcome,
    entries: &[Entry],
) -> Result<Outcome, AllocError>
    ensures { IfOk result (λ o. o ≡ bodies_outcome (S.means scope.now) controls.now so_far (entries_view entries.now)) }
{
    let mut judged = so_far;
    for entry in entries {
        judged = judge_all(alloc, scope, controls, judged, &entry.body)?;
    }
    Ok(judged)
}

#[cycle(judge_stmts)]
fn judge_else<S: Scope>(
    alloc: Global,
    scope: &S,
    controls: &[usize],
    so_far: Outcome,
    other: &Option<Vec<Stmt>>,
) -> Result<Outcome, AllocError>
    ensures { IfOk result (λ o. o ≡ else_outcome (S.means scope.now) controls.now so_far (else_view other.now)) }
{
    match other {
        None => Ok(so_far),
        Some(other) => judge_all(alloc, scope, controls, so_far, other),
    }
}

// Whether statements are whole, their EXITs aside, and what they break first.
#[tactic(auto, using(typing_laws::proofs::Judging::judging))]
fn judge_stmts<S: Scope>(alloc: Global, scope: &S, stmts: &[Stmt]) -> Result<Outcome, AllocError>
    ensures { IfOk result (λ o. o ≡ outcome_of (judged_stmts (S.means scope.now) [] (stmts_view stmts.now))) }
{
    judge_all(alloc, scope, &[], Outcome::ok(), stmts)
}

/// Whether the statements of a POU or of an action are whole, and what they break first. Fails where memory runs out.
#[tactic(auto, using(typing_laws::proofs::Judging::judging))]
pub fn judge_list<S: Scope>(alloc: Global, scope: &S, stmts: &[Stmt]) -> Result<Outcome, AllocError>
    ensures { IfOk result (λ o. o ≡ outcome_of (and (judged_stmts (S.means scope.now) [] (stmts_view stmts.now)) (judged_exits (stmts_view stmts.now)))) }
{
    let judged = judge_stmts(alloc, scope, stmts)?;
    Ok(judged.and(judge_exits(stmts)))
}
