ghost use Rattle.std.specs.Prelude.{◌≡◌, ℕ, ◌≤◌, ◌<◌, max, length, slice_index, slice_set, IfOk};
ghost use Rattle.std.specs.List.{Contains};
ghost use Rattle.clause_core.specs.declared.literal.Lit.{Lit as Literal};
ghost use Rattle.gates.specs.Order.{IsOrdered, end_of};
ghost use Rattle.lane_sim.specs.Choices.{IsChoiceBelow};
ghost use Rattle.lane_sim.specs.Uses.{IsReadUntil, HasGrown, AreReadFrom};

use crate::choice::{Choice, choice_of};
use clause_core::Lit;
use gates::Circuit;
use std::alloc::{AllocError, Global};

// A variable is read by another.
fn note(last: &mut [u32], variable: u32, reader: u32)
    requires { variable < length last.old }
    ensures { last.new ≡ slice_set last.old variable (max (slice_index last.old variable) reader) }
{
    let place = variable as usize;
    last[place] = last[place].max(reader);
}

// The literals of a choice are read by a variable behind them.
fn note_choice(last: &mut [u32], choice: Choice, reader: u32)
    requires below { IsChoiceBelow reader choice }
    requires inside { reader < length last.old }
    ensures read { IsReadUntil reader last.new choice }
    ensures grown { HasGrown last.old last.new }
    ensures later { (y : ℕ) → reader ≤ y → slice_index last.new y ≡ slice_index last.old y }
{
    note(last, choice.condition.variable, reader);
    note(last, choice.yes.variable, reader);
    note(last, choice.no.variable, reader);
}

// The operands of the gates that are read are read themselves.
fn note_gates(circuit: &Circuit, last: &mut [u32])
    requires ordered { IsOrdered circuit.now }
    requires len { length last.old ≡ end_of circuit.now }
    ensures read { AreReadFrom 0 circuit.now last.new }
    ensures grown { HasGrown last.old last.new }
{
    // What the limit ensures bounds the sums.
    circuit.limit();
    let first = circuit.first() as usize;
    for place in (0..circuit.count()).rev() {
        if last[first + place] > 0 {
            note_choice(last, choice_of(circuit.gate(place)), (first + place) as u32);
        }
    }
}

// The literals that are wanted are read by none of the variables, but behind them.
fn note_wanted(wanted: &[Lit], last: &mut [u32])
    ensures { (l : Literal) → Contains wanted.now l → l.variable < length last.new → slice_index last.new l.variable ≡ u32.MAX }
{
    for lit in wanted {
        let place = lit.variable as usize;
        if place < last.len() {
            last[place] = u32::MAX;
        }
    }
}

/// The last variable that reads each variable: 0 where none does, a number behind the circuit where the variable is wanted. A gate that
/// is neither read nor wanted reads nothing.
pub(crate) fn last_uses(
    alloc: Global,
    circuit: &Circuit,
    wanted: &[Lit],
) -> Result<Vec<u32>, AllocError>
    requires { IsOrdered circuit.now }
    ensures len { IfOk result (λ last. length last.items ≡ end_of circuit.now) }
    ensures read { IfOk result (λ last. AreReadFrom 0 circuit.now last.items) }
    ensures wanted { IfOk result (λ last. (l : Literal) → Contains wanted.now l → l.variable < end_of circuit.now → end_of circuit.now ≤ slice_index last.items l.variable) }
{
    // What the limit ensures bounds the sum.
    circuit.limit();
    let count = circuit.first() as usize + circuit.count();
    let mut last = vec![in alloc; 0u32; count]?;
    note_wanted(wanted, &mut last);
    note_gates(circuit, &mut last);
    Ok(last)
}
