// What stands between FOR and DO.
ghost use Rattle.std.specs.Prelude.{◌≡◌, ◌==◌, IfOk};
ghost use Rattle.std.specs.List.{list_any};
ghost use Rattle.source_tree.specs.SyntaxView.{name_view, tree_view, initial_view, iteration_view};
ghost use Rattle.naming.specs.Broken.{alone};
ghost use Rattle.typing.specs.JudgedStatements.{is_free, is_assignable, is_control, may_control, judged_control, judged_bound, judged_step, is_typed, step_is_typed, value_or_zero, bound_value, step_value, range_at, turns_rule, with_place, with_control};
ghost use Rattle.typing.specs.Typing.{by_path};
ghost use Rattle.typing.specs.TypedStatements.{turns_of};
ghost use Rattle.rules.specs.Outcomes.{outcome_of};
ghost use Rattle.typing.specs.Outcomes.{judged_turns};

use crate::constants::constant_value;
use crate::turns::{broken_by_turns, turn_count};
use expr_types::{
    cell_of, judge_and_synthesize, judge_meaning, kind_at, meaning_alone, or_dint, place_of, range,
};
use plc_types::{DataType, Elementary, Range, Value};
use program_tree::Turns;
use rules::{Outcome, Rule};
use source_tree::{Expr, Iteration};
use std::alloc::{AllocError, Global};
use typing::{Meaning, Place, Scope};

// What judging a bound finds: what it breaks, its value, or 0 where it has none, and whether it is of the control
// variable's type.
#[derive(Clone, Copy)]
struct JudgedBound {
    judged: Outcome,
    value: Value,
    fits: bool,
}

/// What judging the turns of a FOR finds: what stands between FOR and DO breaks, and the rule that its turns break.
#[derive(Clone, Copy)]
pub(crate) struct JudgedTurns {
    pub judged: Outcome,
    pub rule: Option<Rule>,
}

fn is_among(controls: &[usize], cell: usize) -> bool
    ensures { result ≡ list_any (λ control. cell == control) controls.now }
{
    for control in controls {
        if cell == *control {
            return true;
        }
    }
    false
}

// Whether a place is a cell that is no control variable of a FOR around.
fn is_free(controls: &[usize], place: Place) -> bool
    ensures { result ≡ is_free controls.now place }
{
    match place {
        Place::Cell(cell) => !is_among(controls, cell),
        Place::Value(_) => false,
    }
}

/// Whether a variable may be assigned inside FORs with these control variables.
pub fn is_assignable(controls: &[usize], meaning: Option<Meaning>) -> bool
    ensures { result ≡ is_assignable controls.now meaning }
{
    match meaning {
        None => false,
        Some(meaning) => {
            meaning.assignable && (!meaning.control || is_free(controls, meaning.place))
        }
    }
}

// What a FUNCTION answers may not control a FOR.
fn is_control(meaning: Option<Meaning>) -> bool
    ensures { result ≡ is_control meaning }
{
    match meaning {
        None => false,
        Some(meaning) => meaning.control,
    }
}

// Whether a variable may be a control variable.
fn may_control(controls: &[usize], meaning: Option<Meaning>) -> bool
    ensures { result ≡ may_control controls.now meaning }
{
    is_assignable(controls, meaning)
        && is_control(meaning)
        && or_dint(kind_at(meaning)).is_integer()
}

#[tactic(auto, using(typing_laws::proofs::Judging::judging))]
fn judge_control(controls: &[usize], meaning: Option<Meaning>, at: usize) -> Outcome
    ensures { result ≡ outcome_of (judged_control controls.now meaning at) }
{
    judge_meaning(meaning).require(may_control(controls, meaning), Rule::NotAssignable, at)
}

fn value_or_zero(value: Option<Value>) -> Value
    ensures { result ≡ value_or_zero value }
{
    match value {
        None => 0,
        Some(value) => value,
    }
}

// A bound or a step is constant; its value goes on to the count of turns.
#[tactic(auto, using(typing_laws::proofs::Judging::judging))]
fn judge_bound<S: Scope>(
    alloc: Global,
    scope: &S,
    kind: DataType,
    bound: &Expr,
) -> Result<JudgedBound, AllocError>
    ensures judged { IfOk result (λ b. b.judged ≡ outcome_of (judged_bound (S.means scope.now) kind (tree_view bound.now))) }
    ensures value { IfOk result (λ b. b.value ≡ bound_value (S.means scope.now) kind (tree_view bound.now)) }
    ensures fits { IfOk result (λ b. b.fits ≡ is_typed (S.means scope.now) kind (tree_view bound.now)) }
{
    let value = constant_value(alloc, scope, Some(kind), bound)?;
    let judged = judge_and_synthesize(alloc, scope, Some(kind), bound)?;
    let fits = judged.kind(Some(kind)).is_same(kind);
    let at = place_of(bound);
    Ok(JudgedBound {
        judged: judged
            .outcome
            .require(value.is_some(), Rule::NotConstant, at),
        value: value_or_zero(value),
        fits,
    })
}

// A step that is not written is 1.
fn judge_step<S: Scope>(
    alloc: Global,
    scope: &S,
    kind: DataType,
    step: &Option<Expr>,
) -> Result<JudgedBound, AllocError>
    ensures judged { IfOk result (λ b. b.judged ≡ outcome_of (judged_step (S.means scope.now) kind (initial_view step.now))) }
    ensures value { IfOk result (λ b. b.value ≡ step_value (S.means scope.now) kind (initial_view step.now)) }
    ensures fits { IfOk result (λ b. b.fits ≡ step_is_typed (S.means scope.now) kind (initial_view step.now)) }
{
    match step {
        None => Ok(JudgedBound {
            judged: Outcome::ok(),
            value: 1,
            fits: true,
        }),
        Some(step) => judge_bound(alloc, scope, kind, step),
    }
}

// The values that what a name stands for may have.
fn range_at(meaning: Option<Meaning>) -> Range
    ensures { result ≡ range_at meaning }
{
    match meaning {
        None => range(Elementary::Dint),
        Some(meaning) => meaning.range,
    }
}

/// What stands between FOR and DO, and the turns, by what the control variable's name stands for; the bounds and the step
/// are of its type. Each of them is evaluated once.
#[tactic(auto, using(typing_laws::proofs::Judging::judging))]
pub(crate) fn judge_turns<S: Scope>(
    alloc: Global,
    scope: &S,
    controls: &[usize],
    meaning: Option<Meaning>,
    iteration: &Iteration,
) -> Result<JudgedTurns, AllocError>
    requires { meaning ≡ (S.means scope.now).means (by_path (alone (name_view iteration.now.control))) }
    ensures judged { IfOk result (λ t. t.judged ≡ outcome_of (judged_turns (S.means scope.now) controls.now meaning (iteration_view iteration.now))) }
    ensures rule { IfOk result (λ t. t.rule ≡ turns_rule (S.means scope.now) (iteration_view iteration.now)) }
{
    let kind = or_dint(kind_at(meaning));
    let at = iteration.control.at;
    let first = judge_bound(alloc, scope, kind, &iteration.first)?;
    let last = judge_bound(alloc, scope, kind, &iteration.last)?;
    let step = judge_step(alloc, scope, kind, &iteration.step)?;
    let rule = broken_by_turns(range_at(meaning), first.value, last.value, step.value);
    let fits = first.fits && last.fits && step.fits;
    let bounds = first.judged.and(last.judged.and(step.judged));
    let parts = judge_control(controls, meaning, at).and(bounds);
    let judged = parts.require(fits, Rule::ValueType, at);
    Ok(JudgedTurns { judged, rule })
}

// The value of a bound, or 0 where it has none.
fn bound_value<S: Scope>(
    alloc: Global,
    scope: &S,
    kind: DataType,
    bound: &Expr,
) -> Result<Value, AllocError>
    ensures { IfOk result (λ value. value ≡ bound_value (S.means scope.now) kind (tree_view bound.now)) }
{
    let value = constant_value(alloc, scope, Some(kind), bound)?;
    Ok(value_or_zero(value))
}

// A step that is not written is 1.
fn step_value<S: Scope>(
    alloc: Global,
    scope: &S,
    kind: DataType,
    step: &Option<Expr>,
) -> Result<Value, AllocError>
    ensures { IfOk result (λ value. value ≡ step_value (S.means scope.now) kind (initial_view step.now)) }
{
    match step {
        None => Ok(1),
        Some(step) => bound_value(alloc, scope, kind, step),
    }
}

/// The turns of a FOR.
pub fn turns_of<S: Scope>(
    alloc: Global,
    scope: &S,
    iteration: &Iteration,
) -> Result<Turns, AllocError>
    ensures { IfOk result (λ turns. turns ≡ turns_of (S.means scope.now) (iteration_view iteration.now)) }
{
    let meaning = meaning_alone(alloc, scope, &iteration.control)?;
    let kind = or_dint(kind_at(meaning));
    let first = bound_value(alloc, scope, kind, &iteration.first)?;
    let last = bound_value(alloc, scope, kind, &iteration.last)?;
    let step = step_value(alloc, scope, kind, &iteration.step)?;
    Ok(Turns {
        count: turn_count(first, last, step),
        control: cell_of(meaning),
        first,
        step,
    })
}

// The control variables inside a FOR whose own is at a place.
fn with_place(alloc: Global, controls: &[usize], place: Place) -> Result<Vec<usize>, AllocError>
    ensures { IfOk result (λ list. list.items ≡ with_place controls.now place) }
{
    let mut list = Vec::new(alloc);
    match place {
        Place::Cell(cell) => list.push(cell)?,
        Place::Value(_) => {}
    }
    list.extend_from_slice(controls)?;
    Ok(list)
}

/// The control variables inside a FOR: its own, and those around.
pub fn with_control(
    alloc: Global,
    controls: &[usize],
    meaning: Option<Meaning>,
) -> Result<Vec<usize>, AllocError>
    ensures { IfOk result (λ list. list.items ≡ with_control controls.now meaning) }
{
    match meaning {
        None => controls.to_vec(alloc),
        Some(meaning) => with_place(alloc, controls, meaning.place),
    }
}
