// The order in which the transitions of a chart fire.
ghost use Rattle.std.specs.Prelude.{◌≡◌, OnOk, option_map};
ghost use Rattle.std.specs.Ordering.{is_lt};
ghost use Rattle.source_tree.specs.SyntaxView.{priority_view};
ghost use Rattle.sfc_shape.specs.Shapes.{comes_first, in_firing_order};
ghost use Rattle.sfc_shape.specs.ShapeView.{seen_transitions};

use source_tree::{ChartTransition, Priority};
use std::alloc::AllocError;
use std::cmp::Ordering;

// By rising number, and those without a priority last.
fn by_priority(first: Option<Priority>, second: Option<Priority>) -> Ordering
    ensures { is_lt result ≡ comes_first (option_map priority_view first) (option_map priority_view second) }
{
    match (first, second) {
        (Some(first), Some(second)) => first.value.cmp(&second.value),
        (Some(_), None) => Ordering::Less,
        (None, Some(_)) => Ordering::Greater,
        (None, None) => Ordering::Equal,
    }
}

/// Puts transitions in the order in which they fire.
pub fn put_in_firing_order(transitions: &mut Vec<&ChartTransition>) -> Result<(), AllocError>
    ensures { OnOk result (seen_transitions transitions.new.items ≡ in_firing_order (seen_transitions transitions.old.items)) }
{
    transitions.sort_by(|first, second| by_priority(first.priority, second.priority))?;
    Ok(())
}
