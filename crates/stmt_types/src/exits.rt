// EXITs outside of FORs. No FOR is looked into.
ghost use Rattle.std.specs.Prelude.{◌≡◌};
ghost use Rattle.source_tree.specs.SyntaxView.{stmt_view, stmts_view, arms_view, entries_view, else_view};
ghost use Rattle.rules.specs.Outcomes.{outcome_of};
ghost use Rattle.typing.specs.JudgedExits.{judged_exits};
ghost use Rattle.stmt_types.specs.ExitOutcomes.{exit_outcome, exits_outcome, exits_of_arms_outcome, exits_of_entries_outcome, exits_of_else_outcome};

use rules::{Outcome, Rule};
use source_tree::{Arm, Entry, Stmt};

#[cycle(judge_all_exits)]
fn judge_exit(so_far: Outcome, stmt: &Stmt) -> Outcome
    ensures { result ≡ exit_outcome so_far (stmt_view stmt.now) }
{
    match stmt {
        Stmt::If(arms, other) => {
            let judged = judge_exits_of_arms(so_far, arms);
            judge_exits_of_else(judged, other)
        }
        Stmt::Case(_, entries, other) => {
            let judged = judge_exits_of_entries(so_far, entries);
            judge_exits_of_else(judged, other)
        }
        Stmt::Exit(at) => so_far.and(Outcome::breaks(Rule::ExitOutsideFor, *at)),
        Stmt::Empty | Stmt::Assign(_, _) | Stmt::Call(_, _, _) | Stmt::For(_, _) | Stmt::Return =>
            so_far,
    }
}

// Statements behind what was judged so far.
#[cycle(judge_all_exits)]
fn judge_all_exits(so_far: Outcome, stmts: &[Stmt]) -> Outcome
    ensures { result ≡ exits_outcome so_far (stmts_view stmts.now) }
{
    let mut judged = so_far;
    for stmt in stmts {
        judged = judge_exit(judged, stmt);
    }
    judged
}

#[cycle(judge_all_exits)]
fn judge_exits_of_arms(so_far: Outcome, arms: &[Arm]) -> Outcome
    ensures { result ≡ exits_of_arms_outcome so_far (arms_view arms.now) }
{
    let mut judged = so_far;
    for arm in arms {
        judged = judge_all_exits(judged, &arm.body);
    }
    judged
}

#[cycle(judge_all_exits)]
fn judge_exits_of_entries(so_far: Outcome, entries: &[Entry]) -> Outcome
    ensures { result ≡ exits_of_entries_outcome so_far (entries_view entries.now) }
{
    let mut judged = so_far;
    for entry in entries {
        judged = judge_all_exits(judged, &entry.body);
    }
    judged
}

#[cycle(judge_all_exits)]
fn judge_exits_of_else(so_far: Outcome, other: &Option<Vec<Stmt>>) -> Outcome
    ensures { result ≡ exits_of_else_outcome so_far (else_view other.now) }
{
    match other {
        None => so_far,
        Some(other) => judge_all_exits(so_far, other),
    }
}

/// Whether no EXIT of statements stands outside of a FOR, and the first that does.
#[tactic(auto, using(crate::proofs::ExitLemmas::exits_judged))]
pub(crate) fn judge_exits(stmts: &[Stmt]) -> Outcome
    ensures { result ≡ outcome_of (judged_exits (stmts_view stmts.now)) }
{
    judge_all_exits(Outcome::ok(), stmts)
}
