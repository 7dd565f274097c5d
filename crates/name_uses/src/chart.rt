// The names that the parts of a chart use, the FUNCTIONs that they call, and its initial step.
ghost use Rattle.std.specs.Prelude.{◌≡◌, ◌++◌, count_by, option_map, OnOk, IfOk};
ghost use Rattle.source_tree.specs.SyntaxView.{name_view, chart_step_view, chart_transition_view, chart_action_view, part_view, parts_view};
ghost use Rattle.naming.specs.Broken.{in_own_name, in_own_name_if, in_chart_step, in_transition, in_action, in_part, in_chart_parts, is_initial_part, place_of_part, place_of_chart, in_chart};
ghost use Rattle.naming.specs.Circles.{calls_in, calls_in_stmts, calls_in_part, calls_in_parts};
ghost use Rattle.pou_scope.specs.NamesView.{file_in, pou_in};
ghost use Rattle.rules.specs.Outcomes.{outcome_of, both};

use crate::associations::walk_associations;
use crate::scope::Scope;
use crate::step_lists::walk_steps;
use crate::walk::{walk_expr, walk_stmts};
use rules::{Outcome, Rule};
use source_tree::{ChartAction, ChartPart, ChartStep, ChartTransition, Name};
use std::alloc::{AllocError, Global};
use use_numbers::UseNumbers;

// The name of a part. Keeps its number.
fn own_name(scope: &Scope<'_, '_>, numbers: &mut UseNumbers, name: &Name) -> Outcome
    ensures { result ≡ outcome_of (in_own_name (pou_in scope.now.names) (name_view name.now)) }
{
    Outcome::whole_if(!scope.names.own.is_doubled(numbers, name))
}

// The name of a transition, where it has one. Keeps its number.
fn own_name_if(scope: &Scope<'_, '_>, numbers: &mut UseNumbers, name: &Option<Name>) -> Outcome
    ensures { result ≡ outcome_of (in_own_name_if (pou_in scope.now.names) (option_map name_view name.now)) }
{
    match name {
        Some(name) => own_name(scope, numbers, name),
        None => Outcome::ok(),
    }
}

// Keeps what a step breaks, and the numbers of its names.
#[tactic(auto, using(rules::proofs::Outcomes::both_on, rules::proofs::Outcomes::both_ok))]
fn walk_step(
    scope: &Scope<'_, '_>,
    step: &ChartStep,
    outcome: &mut Outcome,
    numbers: &mut UseNumbers,
)
    ensures { outcome.new ≡ both outcome.old (outcome_of (in_chart_step (file_in scope.now.names) (pou_in scope.now.names) (chart_step_view step.now))) }
{
    *outcome = outcome.and(own_name(scope, numbers, &step.name));
    walk_associations(scope, &step.actions, outcome, numbers);
}

// Keeps what a transition breaks, and appends the FUNCTIONs that it calls.
#[tactic(auto, using(rules::proofs::Outcomes::both_on, rules::proofs::Outcomes::both_ok))]
fn walk_transition(
    alloc: Global,
    scope: &Scope<'_, '_>,
    transition: &ChartTransition,
    outcome: &mut Outcome,
    numbers: &mut UseNumbers,
    calls: &mut Vec<usize>,
) -> Result<(), AllocError>
    ensures judged { OnOk result (outcome.new ≡ both outcome.old (outcome_of (in_transition (file_in scope.now.names) (pou_in scope.now.names) (chart_transition_view transition.now)))) }
    ensures calls { OnOk result (calls.new.items ≡ calls.old.items ++ calls_in (file_in scope.now.names) (chart_transition_view transition.now).condition) }
{
    *outcome = outcome.and(own_name_if(scope, numbers, &transition.name));
    walk_steps(alloc, scope, &transition.from, outcome, numbers)?;
    walk_steps(alloc, scope, &transition.to, outcome, numbers)?;
    walk_expr(scope, &transition.condition, outcome, numbers, calls)
}

// Keeps what an action breaks, and appends the FUNCTIONs that it calls.
#[tactic(auto, using(rules::proofs::Outcomes::both_on, rules::proofs::Outcomes::both_ok))]
fn walk_action(
    scope: &Scope<'_, '_>,
    action: &ChartAction,
    outcome: &mut Outcome,
    numbers: &mut UseNumbers,
    calls: &mut Vec<usize>,
) -> Result<(), AllocError>
    ensures judged { OnOk result (outcome.new ≡ both outcome.old (outcome_of (in_action (file_in scope.now.names) (pou_in scope.now.names) (chart_action_view action.now)))) }
    ensures calls { OnOk result (calls.new.items ≡ calls.old.items ++ calls_in_stmts (file_in scope.now.names) (chart_action_view action.now).body) }
{
    *outcome = outcome.and(own_name(scope, numbers, &action.name));
    walk_stmts(scope, &action.body, outcome, numbers, calls)
}

// Keeps what a part of a chart breaks, and appends the FUNCTIONs that it calls.
fn walk_part(
    alloc: Global,
    scope: &Scope<'_, '_>,
    part: &ChartPart,
    outcome: &mut Outcome,
    numbers: &mut UseNumbers,
    calls: &mut Vec<usize>,
) -> Result<(), AllocError>
    ensures judged { OnOk result (outcome.new ≡ both outcome.old (outcome_of (in_part (file_in scope.now.names) (pou_in scope.now.names) (part_view part.now)))) }
    ensures calls { OnOk result (calls.new.items ≡ calls.old.items ++ calls_in_part (file_in scope.now.names) (part_view part.now)) }
{
    match part {
        ChartPart::Step(step) => {
            walk_step(scope, step, outcome, numbers);
            Ok(())
        }
        ChartPart::Transition(transition) => {
            walk_transition(alloc, scope, transition, outcome, numbers, calls)
        }
        ChartPart::Action(action) => walk_action(scope, action, outcome, numbers, calls),
    }
}

// Keeps what the parts of a chart break, and appends the FUNCTIONs that they call.
#[tactic(auto, using(rules::proofs::Outcomes::both_on, rules::proofs::Outcomes::both_ok))]
fn walk_parts(
    alloc: Global,
    scope: &Scope<'_, '_>,
    parts: &[ChartPart],
    outcome: &mut Outcome,
    numbers: &mut UseNumbers,
    calls: &mut Vec<usize>,
) -> Result<(), AllocError>
    ensures judged { OnOk result (outcome.new ≡ both outcome.old (outcome_of (in_chart_parts (file_in scope.now.names) (pou_in scope.now.names) (parts_view parts.now)))) }
    ensures calls { OnOk result (calls.new.items ≡ calls.old.items ++ calls_in_parts (file_in scope.now.names) (parts_view parts.now)) }
{
    for part in parts {
        walk_part(alloc, scope, part, outcome, numbers, calls)?;
    }
    Ok(())
}

// What the parts of a chart break. Appends the FUNCTIONs that they call.
#[tactic(auto, using(rules::proofs::Outcomes::ok_both))]
fn judged_parts(
    alloc: Global,
    scope: &Scope<'_, '_>,
    parts: &[ChartPart],
    numbers: &mut UseNumbers,
    calls: &mut Vec<usize>,
) -> Result<Outcome, AllocError>
    ensures judged { IfOk result (λ o. o ≡ outcome_of (in_chart_parts (file_in scope.now.names) (pou_in scope.now.names) (parts_view parts.now))) }
    ensures calls { OnOk result (calls.new.items ≡ calls.old.items ++ calls_in_parts (file_in scope.now.names) (parts_view parts.now)) }
{
    let mut outcome = Outcome::ok();
    walk_parts(alloc, scope, parts, &mut outcome, numbers, calls)?;
    Ok(outcome)
}

// Whether a part is an initial step.
fn is_initial_part(part: &ChartPart) -> bool
    ensures { result ≡ is_initial_part (part_view part.now) }
{
    match part {
        ChartPart::Step(step) => step.is_initial,
        ChartPart::Transition(_) | ChartPart::Action(_) => false,
    }
}

// How many initial steps there are.
fn initial_count(parts: &[ChartPart]) -> usize
    ensures { result ≡ count_by is_initial_part (parts_view parts.now) }
{
    let mut count = 0;
    for part in parts {
        if is_initial_part(part) {
            count += 1;
        }
    }
    count
}

// The place of the word that begins a part.
fn place_of_part(part: &ChartPart) -> usize
    ensures { result ≡ place_of_part (part_view part.now) }
{
    match part {
        ChartPart::Step(step) => step.at,
        ChartPart::Transition(transition) => transition.at,
        ChartPart::Action(action) => action.at,
    }
}

// The place of a chart, which is that of its first part.
fn place_of_chart(parts: &[ChartPart]) -> usize
    ensures { result ≡ place_of_chart (parts_view parts.now) }
{
    match parts.first() {
        Some(part) => place_of_part(part),
        None => 0,
    }
}

/// What a chart breaks. Keeps the numbers of its uses of names, and appends the FUNCTIONs that it calls.
pub fn judged_chart(
    alloc: Global,
    scope: &Scope<'_, '_>,
    parts: &[ChartPart],
    numbers: &mut UseNumbers,
    calls: &mut Vec<usize>,
) -> Result<Outcome, AllocError>
    ensures judged { IfOk result (λ o. o ≡ outcome_of (in_chart (file_in scope.now.names) (pou_in scope.now.names) (parts_view parts.now))) }
    ensures calls { OnOk result (calls.new.items ≡ calls.old.items ++ calls_in_parts (file_in scope.now.names) (parts_view parts.now)) }
{
    let judged = judged_parts(alloc, scope, parts, numbers, calls)?;
    if judged.whole && initial_count(parts) != 1 {
        return Ok(Outcome::breaks(Rule::NotOneInitialStep, place_of_chart(parts)));
    }
    Ok(judged)
}
