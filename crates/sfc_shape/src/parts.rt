// The steps, the transitions and the actions of a chart, in the order of the text.
ghost use Rattle.std.specs.Prelude.{◌≡◌, IfOk};
ghost use Rattle.source_tree.specs.SyntaxView.{parts_view};
ghost use Rattle.sfc_shape.specs.Shapes.{steps_of, transitions_of, actions_of};
ghost use Rattle.sfc_shape.specs.ShapeView.{seen_steps, seen_transitions, seen_actions};

use source_tree::{ChartAction, ChartPart, ChartStep, ChartTransition};
use std::alloc::{AllocError, Global};

/// The steps of a chart.
pub fn steps(alloc: Global, parts: &[ChartPart]) -> Result<Vec<&ChartStep>, AllocError>
    ensures { IfOk result (λ v. seen_steps v.items ≡ steps_of (parts_view parts.now)) }
{
    let mut found = Vec::new(alloc);
    for part in parts {
        if let ChartPart::Step(step) = part {
            found.push(step)?;
        }
    }
    Ok(found)
}

/// The transitions of a chart.
pub fn transitions(alloc: Global, parts: &[ChartPart]) -> Result<Vec<&ChartTransition>, AllocError>
    ensures { IfOk result (λ v. seen_transitions v.items ≡ transitions_of (parts_view parts.now)) }
{
    let mut found = Vec::new(alloc);
    for part in parts {
        if let ChartPart::Transition(transition) = part {
            found.push(transition.as_ref())?;
        }
    }
    Ok(found)
}

/// The actions of a chart.
pub fn actions(alloc: Global, parts: &[ChartPart]) -> Result<Vec<&ChartAction>, AllocError>
    ensures { IfOk result (λ v. seen_actions v.items ≡ actions_of (parts_view parts.now)) }
{
    let mut found = Vec::new(alloc);
    for part in parts {
        if let ChartPart::Action(action) = part {
            found.push(action)?;
        }
    }
    Ok(found)
}
