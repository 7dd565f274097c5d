// The charts of bodies, judged and typed (IEC 61131-3, 2.6).
ghost use Rattle.std.specs.Prelude.{◌≡◌, map, IfOk};
ghost use Rattle.source_tree.specs.SyntaxView.{chart_step_view, chart_transition_view, chart_action_view, part_view, parts_view};
ghost use Rattle.program_tree.specs.View.{stmt_view, action_view, transition_view};
ghost use Rattle.sfc_shape.specs.ShapeView.{seen_steps, seen_transitions, seen_actions};
ghost use Rattle.sfc_shape.specs.PartsView.{parts_in};
ghost use Rattle.typing.specs.JudgedCharts.{judged_part, judged_parts};
ghost use Rattle.rules.specs.Outcomes.{outcome_of};
ghost use Rattle.st_types.specs.LowNames.{HasLowNames};
ghost use Rattle.typing.specs.TypedCharts.{step_cells, latch_of, typed_action, typed_transition, typed_chart};

use expr_types::{cell_of, judge_condition, meaning_alone, type_expr};
use program_tree::{StepCells, TypedAction, TypedStmt, TypedTransition};
use rules::{Outcome, Rule};
use sfc_shape::{Shape, shape_of};
use source_tree::{Chart, ChartAction, ChartPart, ChartStep, ChartTransition};
use std::alloc::{AllocError, Global};
use stmt_types::{judge_list, type_list};
use typing::{Meaning, Place, Scope};
use use_numbers::UseNumbers;

// What a part of a chart breaks.
fn judge_part<S: Scope>(alloc: Global, scope: &S, part: &ChartPart) -> Result<Outcome, AllocError>
    ensures { IfOk result (λ o. o ≡ outcome_of (judged_part (S.means scope.now) (part_view part.now))) }
{
    match part {
        ChartPart::Step(_) => Ok(Outcome::ok()),
        ChartPart::Transition(transition) => {
            judge_condition(alloc, scope, Rule::OperandType, &transition.condition)
        }
        ChartPart::Action(action) => judge_list(alloc, scope, &action.body),
    }
}

/// What the parts of a chart break.
pub(crate) fn judge_parts<S: Scope>(
    alloc: Global,
    scope: &S,
    parts: &[ChartPart],
) -> Result<Outcome, AllocError>
    ensures { IfOk result (λ o. o ≡ outcome_of (judged_parts (S.means scope.now) (parts_view parts.now))) }
{
    let mut judged = Outcome::ok();
    for part in parts {
        judged = judged.and(judge_part(alloc, scope, part)?);
    }
    Ok(judged)
}

// The cells of a step.
fn step_cells<S: Scope>(alloc: Global, scope: &S, step: &ChartStep) -> Result<StepCells, AllocError>
    requires { HasLowNames (S.means scope.now) }
    ensures { IfOk result (λ cells. cells ≡ step_cells (S.means scope.now) (chart_step_view step.now)) }
{
    let active = cell_of(meaning_alone(alloc, scope, &step.name)?);
    Ok(StepCells {
        active,
        before: active + 1,
    })
}

// The cell of a latch.
fn latch_of(meaning: Option<Meaning>) -> Option<usize>
    ensures { result ≡ latch_of meaning }
{
    match meaning?.place {
        Place::Cell(cell) => Some(cell),
        Place::Value(_) => None,
    }
}

fn type_action<S: Scope>(
    alloc: Global,
    scope: &S,
    shape: &Shape<'_>,
    number: usize,
    action: &ChartAction,
) -> Result<TypedAction, AllocError>
    ensures { IfOk result (λ a. action_view a ≡ typed_action (S.means scope.now) (parts_in shape.now) (chart_action_view action.now)) }
{
    let latch = latch_of(meaning_alone(alloc, scope, &action.name)?);
    let associations = shape.associations(alloc, number, &action.name)?;
    let body = type_list(alloc, scope, &action.body)?;
    Ok(TypedAction {
        latch,
        associations,
        body,
    })
}

fn type_transition<S: Scope>(
    alloc: Global,
    scope: &S,
    shape: &Shape<'_>,
    transition: &ChartTransition,
) -> Result<TypedTransition, AllocError>
    ensures { IfOk result (λ t. transition_view t ≡ typed_transition (S.means scope.now) (parts_in shape.now) (chart_transition_view transition.now)) }
{
    let from = shape.step_numbers(alloc, &transition.from)?;
    let to = shape.step_numbers(alloc, &transition.to)?;
    let condition = type_expr(alloc, scope, None, &transition.condition)?;
    Ok(TypedTransition {
        from,
        to,
        condition,
    })
}

fn type_steps<S: Scope>(
    alloc: Global,
    scope: &S,
    steps: &[&ChartStep],
) -> Result<Vec<StepCells>, AllocError>
    requires { HasLowNames (S.means scope.now) }
    ensures { IfOk result (λ list. list.items ≡ map (step_cells (S.means scope.now)) (seen_steps steps.now)) }
{
    let mut list = Vec::new(alloc);
    for step in steps {
        list.push(step_cells(alloc, scope, step)?)?;
    }
    Ok(list)
}

fn type_actions<S: Scope>(
    alloc: Global,
    scope: &S,
    shape: &Shape<'_>,
    actions: &[&ChartAction],
) -> Result<Vec<TypedAction>, AllocError>
    ensures { IfOk result (λ list. map action_view list.items ≡ map (typed_action (S.means scope.now) (parts_in shape.now)) (seen_actions actions.now)) }
{
    let mut list = Vec::new(alloc);
    for (number, action) in actions.iter().enumerate() {
        list.push(type_action(alloc, scope, shape, number, action)?)?;
    }
    Ok(list)
}

fn type_transitions<S: Scope>(
    alloc: Global,
    scope: &S,
    shape: &Shape<'_>,
    transitions: &[&ChartTransition],
) -> Result<Vec<TypedTransition>, AllocError>
    ensures { IfOk result (λ list. map transition_view list.items ≡ map (typed_transition (S.means scope.now) (parts_in shape.now)) (seen_transitions transitions.now)) }
{
    let mut list = Vec::new(alloc);
    for transition in transitions {
        list.push(type_transition(alloc, scope, shape, transition)?)?;
    }
    Ok(list)
}

/// The typed statement that a chart stands for, where these are the numbers of the file's uses of names.
pub(crate) fn type_chart<S: Scope>(
    alloc: Global,
    scope: &S,
    uses: &UseNumbers,
    chart: &Chart,
) -> Result<TypedStmt, AllocError>
    requires { HasLowNames (S.means scope.now) }
    ensures { IfOk result (λ stmt. stmt_view stmt ≡ typed_chart (S.means scope.now) (parts_view chart.now.parts.items)) }
{
    let shape = shape_of(alloc, uses, chart)?;
    let steps = type_steps(alloc, scope, &shape.steps)?;
    let actions = type_actions(alloc, scope, &shape, &shape.actions)?;
    let transitions = type_transitions(alloc, scope, &shape, &shape.transitions)?;
    Ok(TypedStmt::Chart(steps, actions, transitions))
}
