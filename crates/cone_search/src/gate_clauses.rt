// The clauses of a circuit's gates.

use crate::clauses::NOT_DERIVED;
use crate::propagation::Propagator;
use crate::units::positive;
use clause_core::{Gate, Lit};
use gates::Circuit;
use propagation_trail::{Code, low};
use std::alloc::AllocError;

/// Adds the clauses of all gates.
pub(crate) fn add_gates(propagator: &mut Propagator, circuit: &Circuit) -> Result<(), AllocError> {
    for place in 0..circuit.count() {
        let gate = positive(circuit.first().wrapping_add(low(place)));
        match circuit.gate(place) {
            Gate::And(a, b) => add_and(propagator, gate, Code::of(a), Code::of(b))?,
            Gate::Xor(a, b) => add_xor(propagator, gate, Code::of(a), Code::of(b))?,
            Gate::Mux(c, a, b) => {
                add_branch(propagator, gate, Code::of(c.negated()), a)?;
                add_branch(propagator, gate, Code::of(c), b)?;
            }
        }
    }
    Ok(())
}

fn add_and(propagator: &mut Propagator, gate: Code, a: Code, b: Code) -> Result<(), AllocError> {
    propagator.attach(&[gate.negated(), a], NOT_DERIVED)?;
    propagator.attach(&[gate.negated(), b], NOT_DERIVED)?;
    propagator.attach(&[gate, a.negated(), b.negated()], NOT_DERIVED)?;
    Ok(())
}

fn add_xor(propagator: &mut Propagator, gate: Code, a: Code, b: Code) -> Result<(), AllocError> {
    propagator.attach(&[gate.negated(), a, b], NOT_DERIVED)?;
    propagator.attach(&[gate.negated(), a.negated(), b.negated()], NOT_DERIVED)?;
    propagator.attach(&[gate, a.negated(), b], NOT_DERIVED)?;
    propagator.attach(&[gate, a, b.negated()], NOT_DERIVED)?;
    Ok(())
}

/// The gate is this branch, unless the literal `other` is true.
fn add_branch(
    propagator: &mut Propagator,
    gate: Code,
    other: Code,
    branch: Lit,
) -> Result<(), AllocError> {
    let branch = Code::of(branch);
    propagator.attach(&[other, branch.negated(), gate], NOT_DERIVED)?;
    propagator.attach(&[other, branch, gate.negated()], NOT_DERIVED)?;
    Ok(())
}
