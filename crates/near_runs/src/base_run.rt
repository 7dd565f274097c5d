// One run of a circuit.
use clause_core::{Gate, Lit};
use gates::Circuit;
use propagation_trail::read;
use std::alloc::{AllocError, Global};

// The value of a literal.
#[inline(always)]
fn value_of(values: &[bool], lit: Lit) -> bool {
    read(values, lit.variable as usize, false) ^ lit.negative
}

// The value of a gate.
fn gate_value(values: &[bool], gate: Gate) -> bool {
    match gate {
        Gate::And(a, b) => value_of(values, a) && value_of(values, b),
        Gate::Xor(a, b) => value_of(values, a) ^ value_of(values, b),
        Gate::Mux(c, a, b) => {
            if value_of(values, c) {
                value_of(values, a)
            } else {
                value_of(values, b)
            }
        }
    }
}

/// The value of each variable, by its number, where the free bits have these; there is none of variable 0, which is false.
pub(crate) fn run_base(
    alloc: Global,
    circuit: &Circuit,
    free: &[bool],
) -> Result<Vec<bool>, AllocError> {
    let first = circuit.first() as usize;
    let mut values = Vec::with_capacity(alloc, first.saturating_add(circuit.count()))?;
    values.push(false)?;
    values.push(true)?;
    for place in 2..first {
        values.push(read(free, place - 2, false))?;
    }
    for place in 0..circuit.count() {
        let value = gate_value(values.as_slice(), circuit.gate(place));
        values.push(value)?;
    }
    Ok(values)
}
