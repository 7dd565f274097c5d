ghost use Rattle.std.specs.Prelude.{◌≡◌, length, IfOk, IfErr, OnOk};
ghost use Rattle.gates.specs.declared.circuit.GateFault.{GateFault};
ghost use Rattle.gates.specs.Netlists.{IsOverfull, IsWithinLimit, IsExtensionOf};
ghost use Rattle.word_circuits.specs.Sums.{full_adder_of, add_of, sub_of, neg_of};

use crate::words::{not, zeros};
use clause_core::Lit;
use gates::{Circuit, GateFault, TRUE};
use std::alloc::Global;

/// A sum, and its last carry.
#[derive(Drop)]
pub struct Sum {
    pub word: Vec<Lit>,
    pub carry: Lit,
}

// The sum bit and the carry of three bits.
#[tactic(auto, unfolding(crate::specs::Sums::full_adder_of))]
fn full_adder(circuit: &mut Circuit, a: Lit, b: Lit, c: Lit) -> Result<(Lit, Lit), GateFault>
    ensures sum { IfOk result (λ r. r.0 ≡ (full_adder_of a b c circuit.old).sum) }
    ensures carry { IfOk result (λ r. r.1 ≡ (full_adder_of a b c circuit.old).carry) }
    ensures net { OnOk result (circuit.new ≡ (full_adder_of a b c circuit.old).net) }
    ensures fits { OnOk result (IsWithinLimit circuit.new) }
    ensures too_many { IfErr result (λ fault. fault ≡ GateFault.TooMany → IsOverfull (full_adder_of a b c circuit.old).net) }
    ensures extends { IsExtensionOf circuit.old circuit.new }
{
    let x = circuit.xor(a, b)?;
    let sum = circuit.xor(x, c)?;
    let carry = circuit.mux(x, c, a)?;
    Ok((sum, carry))
}

/// The sum of two words and a carry.
pub fn add(
    alloc: Global,
    circuit: &mut Circuit,
    a: &[Lit],
    b: &[Lit],
    carry: Lit,
) -> Result<Sum, GateFault>
    requires { length a.now ≡ length b.now }
    ensures word { IfOk result (λ r. r.word.items ≡ (add_of a.now b.now carry circuit.old).word) }
    ensures carry { IfOk result (λ r. r.carry ≡ (add_of a.now b.now carry circuit.old).carry) }
    ensures len { IfOk result (λ r. length r.word.items ≡ length a.now) }
    ensures net { OnOk result (circuit.new ≡ (add_of a.now b.now carry circuit.old).net) }
    ensures fits { OnOk result (IsWithinLimit circuit.new) }
    ensures too_many { IfErr result (λ fault. fault ≡ GateFault.TooMany → IsOverfull (add_of a.now b.now carry circuit.old).net) }
    ensures extends { IsExtensionOf circuit.old circuit.new }
{
    let mut word = Vec::new(alloc);
    let mut next = carry;
    for i in 0..a.len() {
        let (sum, carried) = full_adder(circuit, a[i], b[i], next)?;
        let Ok(()) = word.push(sum) else {
            return Err(GateFault::Memory);
        };
        next = carried;
    }
    circuit.count();
    Ok(Sum { word, carry: next })
}

/// The difference of two words. The last carry is set where nothing was borrowed.
pub fn sub(alloc: Global, circuit: &mut Circuit, a: &[Lit], b: &[Lit]) -> Result<Sum, GateFault>
    requires { length a.now ≡ length b.now }
    ensures word { IfOk result (λ r. r.word.items ≡ (sub_of a.now b.now circuit.old).word) }
    ensures carry { IfOk result (λ r. r.carry ≡ (sub_of a.now b.now circuit.old).carry) }
    ensures len { IfOk result (λ r. length r.word.items ≡ length a.now) }
    ensures net { OnOk result (circuit.new ≡ (sub_of a.now b.now circuit.old).net) }
    ensures fits { OnOk result (IsWithinLimit circuit.new) }
    ensures too_many { IfErr result (λ fault. fault ≡ GateFault.TooMany → IsOverfull (sub_of a.now b.now circuit.old).net) }
    ensures extends { IsExtensionOf circuit.old circuit.new }
{
    let Ok(turned) = not(alloc, b) else {
        return Err(GateFault::Memory);
    };
    add(alloc, circuit, a, turned.as_slice(), TRUE)
}

/// The negative of a word, as the difference from zero.
pub fn neg(alloc: Global, circuit: &mut Circuit, a: &[Lit]) -> Result<Sum, GateFault>
    ensures word { IfOk result (λ r. r.word.items ≡ (neg_of a.now circuit.old).word) }
    ensures carry { IfOk result (λ r. r.carry ≡ (neg_of a.now circuit.old).carry) }
    ensures len { IfOk result (λ r. length r.word.items ≡ length a.now) }
    ensures net { OnOk result (circuit.new ≡ (neg_of a.now circuit.old).net) }
    ensures fits { OnOk result (IsWithinLimit circuit.new) }
    ensures too_many { IfErr result (λ fault. fault ≡ GateFault.TooMany → IsOverfull (neg_of a.now circuit.old).net) }
    ensures extends { IsExtensionOf circuit.old circuit.new }
{
    let Ok(zero) = zeros(alloc, a.len()) else {
        return Err(GateFault::Memory);
    };
    sub(alloc, circuit, zero.as_slice(), a)
}
