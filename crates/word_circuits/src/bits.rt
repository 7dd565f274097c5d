ghost use Rattle.std.specs.Prelude.{◌≡◌, length, IfOk, IfErr, OnOk};
ghost use Rattle.gates.specs.declared.circuit.GateFault.{GateFault};
ghost use Rattle.gates.specs.Netlists.{IsOverfull, IsWithinLimit, IsExtensionOf};
ghost use Rattle.word_circuits.specs.Words.{bit_of, bitwise_of};

use clause_core::Lit;
use gates::{Circuit, GateFault};
use std::alloc::Global;

/// An operator on bits.
#[derive(Clone, Copy)]
pub enum BitOperator {
    And,
    Or,
    Xor,
}

/// AND, OR or XOR of two literals.
pub fn combine(
    circuit: &mut Circuit,
    operator: BitOperator,
    a: Lit,
    b: Lit,
) -> Result<Lit, GateFault>
    ensures lit { IfOk result (λ l. l ≡ (bit_of operator a b circuit.old).lit) }
    ensures net { OnOk result (circuit.new ≡ (bit_of operator a b circuit.old).net) }
    ensures fits { OnOk result (IsWithinLimit circuit.new) }
    ensures too_many { IfErr result (λ fault. fault ≡ GateFault.TooMany → IsOverfull (bit_of operator a b circuit.old).net) }
    ensures extends { IsExtensionOf circuit.old circuit.new }
{
    match operator {
        BitOperator::And => circuit.and(a, b),
        BitOperator::Or => circuit.or(a, b),
        BitOperator::Xor => circuit.xor(a, b),
    }
}

/// AND, OR or XOR of two words, bit by bit.
pub fn bitwise(
    alloc: Global,
    circuit: &mut Circuit,
    operator: BitOperator,
    a: &[Lit],
    b: &[Lit],
) -> Result<Vec<Lit>, GateFault>
    requires { length a.now ≡ length b.now }
    ensures word { IfOk result (λ w. w.items ≡ (bitwise_of operator a.now b.now circuit.old).word) }
    ensures len { IfOk result (λ w. length w.items ≡ length a.now) }
    ensures net { OnOk result (circuit.new ≡ (bitwise_of operator a.now b.now circuit.old).net) }
    ensures fits { OnOk result (IsWithinLimit circuit.new) }
    ensures too_many { IfErr result (λ fault. fault ≡ GateFault.TooMany → IsOverfull (bitwise_of operator a.now b.now circuit.old).net) }
    ensures extends { IsExtensionOf circuit.old circuit.new }
{
    let mut word = Vec::new(alloc);
    for i in 0..a.len() {
        let bit = combine(circuit, operator, a[i], b[i])?;
        let Ok(()) = word.push(bit) else {
            return Err(GateFault::Memory);
        };
    }
    circuit.count();
    Ok(word)
}
