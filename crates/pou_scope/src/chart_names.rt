// The names of a chart's steps, actions and transitions.
ghost use Rattle.std.specs.Prelude.{◌≡◌, ◌++◌, ◌∷◌, [], OnOk, IfOk, option_map};
ghost use Rattle.std.specs.List.{list_any};
ghost use Rattle.source_tree.specs.SyntaxView.{name_view, step_action_view, step_actions_view, part_view, parts_view, body_view};
ghost use Rattle.naming.specs.ChartWords.{stores, is_stored_in, is_stored};
ghost use Rattle.naming.specs.Scopes.{of_chart, transition_named, declared_by_part, declared_by_parts, names_in_body};
ghost use Rattle.naming.specs.ScopeView.{variables_view};
ghost use Rattle.naming.specs.TextSets.{has, Adds, IsSetOf};

use crate::text_set::{TextSet, add, has};
use indexmap::IndexMap;
use naming::{Declared, Role, is_storing, qualifier_of};
use source_tree::{Body, ChartPart, Name, StepAction};
use std::alloc::{AllocError, Global};

// Adds the action of an association, where it is set or reset.
fn add_stored(stored: &mut TextSet, action: &StepAction) -> Result<(), AllocError>
    ensures { OnOk result (Adds stored.old stored.new (λ text. stores text (step_action_view action.now))) }
{
    if is_storing(qualifier_of(action)) {
        add(stored, &action.action)?;
    }
    Ok(())
}

// Adds the actions that a step sets or resets.
fn add_all_stored(stored: &mut TextSet, actions: &[StepAction]) -> Result<(), AllocError>
    ensures { OnOk result (Adds stored.old stored.new (λ text. list_any (stores text) (step_actions_view actions.now))) }
{
    for action in actions {
        add_stored(stored, action)?;
    }
    Ok(())
}

// Adds the actions that a part of a chart sets or resets.
fn add_stored_in(stored: &mut TextSet, part: &ChartPart) -> Result<(), AllocError>
    ensures { OnOk result (Adds stored.old stored.new (is_stored_in (part_view part.now))) }
{
    match part {
        ChartPart::Step(step) => add_all_stored(stored, &step.actions),
        ChartPart::Transition(_) | ChartPart::Action(_) => Ok(()),
    }
}

// The actions of a chart that are stored.
fn stored_actions(alloc: Global, parts: &[ChartPart]) -> Result<TextSet, AllocError>
    ensures { IfOk result (λ stored. IsSetOf stored (is_stored (parts_view parts.now))) }
{
    let mut stored = IndexMap::new(alloc);
    for part in parts {
        add_stored_in(&mut stored, part)?;
    }
    Ok(stored)
}

// How many steps and how many actions of a chart stand before a part.
#[derive(Drop)]
struct Counts {
    steps: usize,
    actions: usize,
}

impl Counts {
    // The number of a step that stands here.
    fn step(&mut self) -> usize {
        let number = self.steps;
        self.steps = number.saturating_add(1);
        number
    }

    // The number of an action that stands here.
    fn action(&mut self) -> usize {
        let number = self.actions;
        self.actions = number.saturating_add(1);
        number
    }
}

// Appends a name of a chart, of a step or an action with its number.
fn append_name<'a>(
    list: &mut Vec<Declared<'a>>,
    role: Role,
    part: Option<usize>,
    name: &'a Name,
) -> Result<(), AllocError>
    ensures { OnOk result (variables_view list.new.items ≡ variables_view list.old.items ++ of_chart role (name_view name.now) ∷ []) }
{
    list.push(Declared {
        name,
        role,
        kind: None,
        initial: None,
        part,
        block: None,
        whole: false,
    })?;
    Ok(())
}

// Appends the name of a transition, where it has one.
fn append_transition<'a>(
    list: &mut Vec<Declared<'a>>,
    name: &'a Option<Name>,
) -> Result<(), AllocError>
    ensures { OnOk result (variables_view list.new.items ≡ variables_view list.old.items ++ transition_named (option_map name_view name.now)) }
{
    match name {
        Some(name) => append_name(list, Role::Transition, None, name),
        None => Ok(()),
    }
}

// Appends the name of a part of a chart that stores these actions.
fn append_part<'a>(
    list: &mut Vec<Declared<'a>>,
    stored: &TextSet,
    counts: &mut Counts,
    part: &'a ChartPart,
) -> Result<(), AllocError>
    ensures { OnOk result (variables_view list.new.items ≡ variables_view list.old.items ++ declared_by_part (has stored.now) (part_view part.now)) }
{
    match part {
        ChartPart::Step(step) => {
            let role = Role::of_step(step.is_initial);
            append_name(list, role, Some(counts.step()), &step.name)
        }
        ChartPart::Transition(transition) => append_transition(list, &transition.name),
        ChartPart::Action(action) => {
            let role = Role::of_action(has(stored, action.name.text.as_str()));
            append_name(list, role, Some(counts.action()), &action.name)
        }
    }
}

// Appends the names of the parts of a chart that stores these actions.
fn append_parts<'a>(
    list: &mut Vec<Declared<'a>>,
    stored: &TextSet,
    parts: &'a [ChartPart],
) -> Result<(), AllocError>
    ensures { OnOk result (variables_view list.new.items ≡ variables_view list.old.items ++ declared_by_parts (has stored.now) (parts_view parts.now)) }
{
    let mut counts = Counts {
        steps: 0,
        actions: 0,
    };
    for part in parts {
        append_part(list, stored, &mut counts, part)?;
    }
    Ok(())
}

// Appends the names of a chart, by its parts.
fn append_chart<'a>(
    alloc: Global,
    list: &mut Vec<Declared<'a>>,
    parts: &'a [ChartPart],
) -> Result<(), AllocError>
    ensures { OnOk result (variables_view list.new.items ≡ variables_view list.old.items ++ declared_by_parts (is_stored (parts_view parts.now)) (parts_view parts.now)) }
{
    let stored = stored_actions(alloc, parts)?;
    append_parts(list, &stored, parts)
}

/// Appends the names of a chart, where a POU has one, in the order of the text.
pub fn append_names_in_body<'a>(
    alloc: Global,
    list: &mut Vec<Declared<'a>>,
    body: &'a Body,
) -> Result<(), AllocError>
    ensures { OnOk result (variables_view list.new.items ≡ variables_view list.old.items ++ names_in_body (body_view body.now)) }
{
    match body {
        Body::Statements(_) => Ok(()),
        Body::Chart(chart) => append_chart(alloc, list, &chart.parts),
    }
}
