// Charts as flat statements.
ghost use Rattle.std.specs.Prelude.{◌≡◌, ◌<◌, ◌^◌, ◌+◌, ◌*◌, ◌++◌, ◌∷◌, [], length, All, IfSome, OnOk};
ghost use Rattle.program_tree.specs.Tree.{chart};
ghost use Rattle.program_tree.specs.View.{action_view, actions_view, transition_view, transitions_view};
ghost use Rattle.program_tree.specs.ChartPlaces.{latch_places};
ghost use Rattle.flat_core.specs.FlatView.{flats_view};
ghost use Rattle.flat_charts.specs.Views.{owner_view};
ghost use Rattle.flat_form.specs.Calls.{scratch_in};
ghost use Rattle.flat_form.specs.FlatCharts.{scratch_of_transitions, flat_transition, flat_transitions};
ghost use Rattle.flat_form.specs.Unless.{without_flags};
ghost use Rattle.flat_form.specs.FlatLists.{scratch_of, scratch_of_actions, scratch_of_action, flat_of, flat_actions, flat_action};
ghost use Rattle.flat_charts.specs.Views.{bodies_here, IsKnown, HasPlace, StepsHavePlaces, FlagsHavePlaces};
ghost use Rattle.typed_programs.specs.Statements.{AreTyped, AreTypedActions, AreTypedTransitions, IsTypedChart};
ghost use Rattle.fb_inline.specs.TypedScopes.{IsTypedOver, HasType};

use crate::calls::flatten_expr;
use crate::chart_lists::{put_fired, put_flags, put_latches, put_marks};
use crate::leaving::NO_FLAGS;
use crate::puts::put_branch;
use crate::statements::flatten_all;
use flat_charts::{FlatScope, ready_test, runs_test};
use flat_core::FlatStmt;
use program_tree::{Scratch, StepCells, TypedAction, TypedTransition};
use std::alloc::{AllocError, Global};

/// Appends the flat list of a chart, and its scratch cells.
#[cycle(flatten)]
pub fn flatten_chart(
    steps: &[StepCells],
    actions: &[TypedAction],
    transitions: &[TypedTransition],
    scope: &FlatScope<'_, '_>,
    scratch: &mut Vec<Scratch>,
    out: &mut Vec<FlatStmt>,
    alloc: Global,
) -> Result<(), AllocError>
    requires known { IsKnown scope.now }
    requires typed { IsTypedOver scope.now (λ pous b. IsTypedChart pous b steps.now (actions_view actions.now) (transitions_view transitions.now)) }
    ensures list { OnOk result (flats_view out.new.items
        ≡ flats_view out.old.items ++ flat_of (bodies_here scope.now) (owner_view scope.now.owner) scope.now.base without_flags (chart steps.now (actions_view actions.now) (transitions_view transitions.now)) (scope.now.cells + length scratch.old.items)) }
    ensures scratch { OnOk result (scratch.new.items
        ≡ scratch.old.items ++ scratch_of (bodies_here scope.now) (chart steps.now (actions_view actions.now) (transitions_view transitions.now))) }
{
    put_latches(actions, steps, scope, out, alloc)?;
    flatten_actions(actions, steps, scope, scratch, out, alloc)?;
    let flags = put_flags(steps, scope.cells, scratch, out)?;
    flatten_transitions(transitions, steps, flags, scope, scratch, out, alloc)?;
    put_marks(steps, flags, scope, out, alloc)?;
    Ok(())
}

// The actions, each behind the test whether it runs.
#[cycle(flatten)]
fn flatten_actions(
    actions: &[TypedAction],
    steps: &[StepCells],
    scope: &FlatScope<'_, '_>,
    scratch: &mut Vec<Scratch>,
    out: &mut Vec<FlatStmt>,
    alloc: Global,
) -> Result<(), AllocError>
    requires known { IsKnown scope.now }
    requires steps { StepsHavePlaces scope.now.base steps.now }
    requires latches { All (HasPlace scope.now.base) (latch_places (actions_view actions.now)) }
    requires typed { IsTypedOver scope.now (λ pous b. AreTypedActions pous b (length steps.now) (actions_view actions.now)) }
    ensures list { OnOk result (flats_view out.new.items
        ≡ flats_view out.old.items ++ flat_actions (bodies_here scope.now) (owner_view scope.now.owner) scope.now.base steps.now (actions_view actions.now) (scope.now.cells + length scratch.old.items)) }
    ensures scratch { OnOk result (scratch.new.items ≡ scratch.old.items ++ scratch_of_actions (bodies_here scope.now) (actions_view actions.now)) }
{
    for action in actions {
        flatten_action(action, steps, scope, scratch, out, alloc)?;
    }
    Ok(())
}

#[cycle(flatten)]
fn flatten_action(
    action: &TypedAction,
    steps: &[StepCells],
    scope: &FlatScope<'_, '_>,
    scratch: &mut Vec<Scratch>,
    out: &mut Vec<FlatStmt>,
    alloc: Global,
) -> Result<(), AllocError>
    requires known { IsKnown scope.now }
    requires steps { StepsHavePlaces scope.now.base steps.now }
    requires latch { IfSome (action_view action.now).0 (HasPlace scope.now.base) }
    requires typed { IsTypedOver scope.now (λ pous b. AreTyped pous b (action_view action.now).2) }
    ensures list { OnOk result (flats_view out.new.items
        ≡ flats_view out.old.items ++ flat_action (bodies_here scope.now) (owner_view scope.now.owner) scope.now.base steps.now (action_view action.now) (scope.now.cells + length scratch.old.items)) }
    ensures scratch { OnOk result (scratch.new.items ≡ scratch.old.items ++ scratch_of_action (bodies_here scope.now) (action_view action.now)) }
{
    if action.associations.is_empty() {
        return Ok(());
    }
    let test = runs_test(alloc, action.latch, &action.associations, steps, scope)?;
    let mut body = Vec::new(alloc);
    flatten_all(&action.body, scope, NO_FLAGS, scratch, &mut body, alloc)?;
    put_branch(out, test, body, alloc)?;
    Ok(())
}

// The transitions, in the order in which they fire; the flags of steps begin at a place.
#[cycle(flatten)]
fn flatten_transitions(
    transitions: &[TypedTransition],
    steps: &[StepCells],
    flags: usize,
    scope: &FlatScope<'_, '_>,
    scratch: &mut Vec<Scratch>,
    out: &mut Vec<FlatStmt>,
    alloc: Global,
) -> Result<(), AllocError>
    requires known { IsKnown scope.now }
    requires steps { StepsHavePlaces scope.now.base steps.now }
    requires flags { flags + 2 * length steps.now < 2 ^ 64 }
    requires typed { IsTypedOver scope.now (λ pous b. AreTypedTransitions pous b (length steps.now) (transitions_view transitions.now)) }
    ensures list { OnOk result (flats_view out.new.items
        ≡ flats_view out.old.items ++ flat_transitions (bodies_here scope.now) (owner_view scope.now.owner) scope.now.base steps.now flags (transitions_view transitions.now) (scope.now.cells + length scratch.old.items)) }
    ensures scratch { OnOk result (scratch.new.items ≡ scratch.old.items ++ scratch_of_transitions (bodies_here scope.now) (transitions_view transitions.now)) }
{
    for transition in transitions {
        flatten_transition(transition, steps, flags, scope, scratch, out, alloc)?;
    }
    Ok(())
}

// A transition, whose condition is evaluated where it may fire.
#[cycle(flatten)]
fn flatten_transition(
    transition: &TypedTransition,
    steps: &[StepCells],
    flags: usize,
    scope: &FlatScope<'_, '_>,
    scratch: &mut Vec<Scratch>,
    out: &mut Vec<FlatStmt>,
    alloc: Global,
) -> Result<(), AllocError>
    requires known { IsKnown scope.now }
    requires steps { StepsHavePlaces scope.now.base steps.now }
    requires from { FlagsHavePlaces flags (transition_view transition.now).from }
    requires to { FlagsHavePlaces flags (transition_view transition.now).to }
    requires typed { IsTypedOver scope.now (λ pous b. HasType pous b (transition_view transition.now).condition) }
    ensures list { OnOk result (flats_view out.new.items
        ≡ flats_view out.old.items ++ flat_transition (bodies_here scope.now) (owner_view scope.now.owner) scope.now.base steps.now flags (transition_view transition.now) (scope.now.cells + length scratch.old.items) ∷ []) }
    ensures scratch { OnOk result (scratch.new.items ≡ scratch.old.items ++ scratch_in (bodies_here scope.now) (transition_view transition.now).condition) }
{
    let ready = ready_test(alloc, &transition.from, flags, steps, scope)?;
    let mut tried = Vec::new(alloc);
    let condition = flatten_expr(&transition.condition, scope, scratch, &mut tried, alloc)?;
    let mut fired = Vec::new(alloc);
    put_fired(&transition.from, &transition.to, flags, &mut fired)?;
    put_branch(&mut tried, condition, fired, alloc)?;
    put_branch(out, ready, tried, alloc)?;
    Ok(())
}
