// The selector of a CASE, and its labels.
ghost use Rattle.std.specs.Prelude.{◌≡◌, IfOk, None};
ghost use Rattle.source_tree.specs.SyntaxView.{tree_view, entries_view};
ghost use Rattle.typing.specs.Typing.{type_of};
ghost use Rattle.typing.specs.JudgedStatements.{may_select, judged_selector};
ghost use Rattle.rules.specs.Outcomes.{outcome_of};
ghost use Rattle.typing.specs.Outcomes.{judged_selection};

use crate::labels::judge_labels;
use expr_types::{judge_and_synthesize, place_of};
use plc_types::DataType;
use rules::{Outcome, Rule};
use source_tree::{Entry, Expr};
use std::alloc::{AllocError, Global};
use typing::Scope;

/// What judging the selector of a CASE tells, and its type.
#[derive(Clone, Copy)]
struct Selector {
    outcome: Outcome,
    kind: DataType,
}

fn may_select(kind: DataType) -> bool
    ensures { result ≡ may_select kind }
{
    match kind {
        DataType::Elementary(kind) => kind.is_integer(),
        DataType::Enumeration(_) => true,
        DataType::Unknown => false,
    }
}

// A selector that was judged is of an integer type, or an enumeration.
#[tactic(auto, using(typing_laws::proofs::Judging::judging))]
fn judge_selector<S: Scope>(
    alloc: Global,
    scope: &S,
    selector: &Expr,
) -> Result<Selector, AllocError>
    ensures outcome { IfOk result (λ s. s.outcome ≡ outcome_of (judged_selector (S.means scope.now) (tree_view selector.now))) }
    ensures kind { IfOk result (λ s. s.kind ≡ type_of (S.means scope.now) None (tree_view selector.now)) }
{
    let judged = judge_and_synthesize(alloc, scope, None, selector)?;
    let kind = judged.kind(None);
    let fits = may_select(kind);
    let at = place_of(selector);
    Ok(Selector {
        outcome: judged.outcome.require(fits, Rule::OperandType, at),
        kind,
    })
}

/// A selector, and where it is whole the labels of a CASE.
pub(crate) fn judge_selection<S: Scope>(
    alloc: Global,
    scope: &S,
    selector: &Expr,
    entries: &[Entry],
) -> Result<Outcome, AllocError>
    ensures { IfOk result (λ o. o ≡ outcome_of (judged_selection (S.means scope.now) (tree_view selector.now) (entries_view entries.now))) }
{
    let judged = judge_selector(alloc, scope, selector)?;
    if !judged.outcome.whole {
        return Ok(judged.outcome);
    }
    let labels = judge_labels(alloc, scope, judged.kind, entries)?;
    Ok(judged.outcome.and(labels))
}
