// The shape of a chart.
ghost use Rattle.std.specs.Prelude.{◌≡◌, ℕ, List, IfOk};
ghost use Rattle.std.specs.HashMap.{get_by_text};
ghost use Rattle.source_tree.specs.SyntaxView.{parts_view};
ghost use Rattle.sfc_shape.specs.Shapes.{steps_of, transitions_of, actions_of, associations_of, in_firing_order};
ghost use Rattle.sfc_shape.specs.ShapeView.{seen_steps, seen_transitions, seen_actions, number_found, listed};

use crate::associations::{Associations, associations, associations_by};
use crate::firing::put_in_firing_order;
use crate::numbers::{Numbers, numbers};
use crate::parts::{actions, steps, transitions};
use program_tree::Association;
use source_tree::{Chart, ChartAction, ChartStep, ChartTransition, Name, Steps};
use std::alloc::{AllocError, Global};
use use_numbers::{UseNumbers, value_by};

/// A chart by its steps and its actions in the order of the text, and its transitions in the order in which they fire. Its names are
/// found by the numbers that are kept of their uses.
#[derive(Drop)]
pub struct Shape<'a> {
    pub chart: &'a Chart,
    uses: &'a UseNumbers,
    pub steps: Vec<&'a ChartStep>,
    pub actions: Vec<&'a ChartAction>,
    pub transitions: Vec<&'a ChartTransition>,
    numbers: Numbers,
    associations: Associations,
    ghost has_steps: { seen_steps steps.items ≡ steps_of (parts_view chart.now.parts.items) },
    ghost numbered: { (text : List ℕ) → get_by_text numbers text ≡ number_found 0 (steps_of (parts_view chart.now.parts.items)) text },
    ghost associated: { (text : List ℕ) → listed associations text ≡ associations_of (parts_view chart.now.parts.items) text },
}

/// The shape of a chart, where these are the numbers of the file's uses of names.
pub fn shape_of<'a>(
    alloc: Global,
    uses: &'a UseNumbers,
    chart: &'a Chart,
) -> Result<Shape<'a>, AllocError>
    ensures parts { IfOk result (λ shape. parts_view shape.chart.now.parts.items ≡ parts_view chart.now.parts.items) }
    ensures steps { IfOk result (λ shape. seen_steps shape.steps.items ≡ steps_of (parts_view chart.now.parts.items)) }
    ensures actions { IfOk result (λ shape. seen_actions shape.actions.items ≡ actions_of (parts_view chart.now.parts.items)) }
    ensures transitions { IfOk result (λ shape. seen_transitions shape.transitions.items ≡ in_firing_order (transitions_of (parts_view chart.now.parts.items))) }
{
    let steps = steps(alloc, &chart.parts)?;
    let actions = actions(alloc, &chart.parts)?;
    let mut transitions = transitions(alloc, &chart.parts)?;
    put_in_firing_order(&mut transitions)?;
    let numbers = numbers(alloc, &steps)?;
    let associations = associations(alloc, uses, &actions, &steps)?;
    Ok(Shape {
        chart,
        uses,
        steps,
        actions,
        transitions,
        numbers,
        associations,
    })
}

impl Shape<'_> {
    ghost use Rattle.std.specs.Prelude.{◌++◌, OnOk, map};
    ghost use Rattle.source_tree.specs.SyntaxView.{name_view, names_view, steps_view};
    ghost use Rattle.sfc_shape.specs.Shapes.{step_number, step_numbers};
    ghost use Rattle.sfc_shape.specs.PartsView.{parts_in};

    // The number of the step that a name uses; where the chart has none of that name, the one behind its last.
    fn step_number(&self, name: &Name) -> usize
        ensures { result ≡ step_number 0 (steps_of (parts_in self.now)) (name_view name.now).text }
    {
        let kept = self.uses.get(name.at);
        match value_by(&self.numbers, kept, name.text.as_str()) {
            Some(number) => number,
            None => self.steps.len(),
        }
    }

    // Appends the numbers of steps.
    fn append_numbers(&self, names: &[Name], numbers: &mut Vec<usize>) -> Result<(), AllocError>
        ensures { OnOk result (numbers.new.items ≡ numbers.old.items ++ map (λ n. step_number 0 (steps_of (parts_in self.now)) n.text) (names_view names.now)) }
    {
        for name in names {
            numbers.push(self.step_number(name))?;
        }
        Ok(())
    }

    /// The numbers of the steps before or behind a transition.
    pub fn step_numbers(&self, alloc: Global, steps: &Steps) -> Result<Vec<usize>, AllocError>
        ensures { IfOk result (λ v. v.items ≡ step_numbers (parts_in self.now) (steps_view steps.now)) }
    {
        let mut numbers = Vec::new(alloc);
        match steps {
            Steps::One(name) => numbers.push(self.step_number(name))?,
            Steps::Several(_, first, others) => {
                numbers.push(self.step_number(first))?;
                self.append_numbers(others, &mut numbers)?;
            }
        }
        Ok(numbers)
    }

    /// The associations of the action of a name, in the order of the text, where this is its number among the actions.
    pub fn associations(
        &self,
        alloc: Global,
        number: usize,
        action: &Name,
    ) -> Result<Vec<Association>, AllocError>
        ensures { IfOk result (λ v. v.items ≡ associations_of (parts_in self.now) (name_view action.now).text) }
    {
        associations_by(alloc, &self.associations, number, action.text.as_str())
    }
}
