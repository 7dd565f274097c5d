// How many flat statements the latches, steps and transitions of charts become.
ghost use Rattle.std.specs.Prelude.{◌≡◌, ◌+◌, ◌*◌, ◌≤◌, length};
ghost use Rattle.program_tree.specs.View.{action_view, actions_view, transition_view, transitions_view};
ghost use Rattle.flat_count.specs.Counts.{count_of_latch, count_of_latches, count_of_transition, count_of_transitions, counting_here, capped};

use crate::count_calls::count_calls;
use crate::counts::Counts;
use crate::sums::{capped, sum};
use program_tree::{StepCells, TypedAction, TypedTransition};

/// The latches of actions.
pub fn count_latches(actions: &[TypedAction]) -> usize
    ensures count { result ≡ capped (count_of_latches (actions_view actions.now)) }
    ensures fits { result ≤ 200001 }
{
    let mut total = 0;
    for action in actions {
        total = sum(total, count_latch(action));
    }
    total
}

fn count_latch(action: &TypedAction) -> usize
    ensures count { result ≡ count_of_latch (action_view action.now).0 }
    ensures fits { result ≤ 1 }
{
    match action.latch {
        None => 0,
        Some(_) => 1,
    }
}

/// The flags and marks of steps, and the transitions.
pub fn count_moves(
    steps: &[StepCells],
    transitions: &[TypedTransition],
    counts: &Counts<'_>,
) -> usize
    ensures count { result ≡ capped (4 * length steps.now + count_of_transitions (counting_here counts.now) (transitions_view transitions.now)) }
    ensures fits { result ≤ 200001 }
{
    let flags = capped(4 * capped(steps.len()));
    sum(flags, count_transitions(transitions, counts))
}

fn count_transitions(transitions: &[TypedTransition], counts: &Counts<'_>) -> usize
    ensures count { result ≡ capped (count_of_transitions (counting_here counts.now) (transitions_view transitions.now)) }
    ensures fits { result ≤ 200001 }
{
    let mut total = 0;
    for transition in transitions {
        total = sum(total, count_transition(transition, counts));
    }
    total
}

fn count_transition(transition: &TypedTransition, counts: &Counts<'_>) -> usize
    ensures count { result ≡ capped (count_of_transition (counting_here counts.now) (transition_view transition.now)) }
    ensures fits { result ≤ 200001 }
{
    let condition = sum(2, count_calls(&transition.condition, counts));
    let from = capped(transition.from.len());
    let to = capped(transition.to.len());
    sum(condition, sum(from, to))
}
