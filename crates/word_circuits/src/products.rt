ghost use Rattle.std.specs.Prelude.{◌≡◌, ◌≤◌, ◌∷◌, [], length, IfOk, IfErr, OnOk};
ghost use Rattle.gates.specs.declared.circuit.GateFault.{GateFault};
ghost use Rattle.gates.specs.Netlists.{IsOverfull, IsWithinLimit, IsExtensionOf};
ghost use Rattle.word_circuits.specs.Products.{row_of, mul_from, mul_of};

use crate::bits::{BitOperator, bitwise};
use crate::sums::add;
use crate::words::{copies, joined, zeros};
use clause_core::Lit;
use gates::{Circuit, FALSE, GateFault};
use std::alloc::Global;

// The row of a multiplication for bit `i` of the second word.
fn row(
    alloc: Global,
    circuit: &mut Circuit,
    a: &[Lit],
    i: usize,
    bit: Lit,
) -> Result<Vec<Lit>, GateFault>
    requires { i ≤ length a.now }
    ensures word { IfOk result (λ w. w.items ≡ (row_of a.now i bit circuit.old).word) }
    ensures len { IfOk result (λ w. length w.items ≡ length a.now) }
    ensures net { OnOk result (circuit.new ≡ (row_of a.now i bit circuit.old).net) }
    ensures fits { OnOk result (IsWithinLimit circuit.new) }
    ensures too_many { IfErr result (λ fault. fault ≡ GateFault.TooMany → IsOverfull (row_of a.now i bit circuit.old).net) }
    ensures extends { IsExtensionOf circuit.old circuit.new }
{
    let low = &a[..a.len() - i];
    let Ok(bits) = copies(alloc, bit, low.len()) else {
        return Err(GateFault::Memory);
    };
    let Ok(below) = zeros(alloc, i) else {
        return Err(GateFault::Memory);
    };
    let products = bitwise(alloc, circuit, BitOperator::And, low, bits.as_slice())?;
    let Ok(word) = joined(alloc, below.as_slice(), products.as_slice()) else {
        return Err(GateFault::Memory);
    };
    Ok(word)
}

// The sum so far and the row for bit `i` of the second word.
fn add_row(
    alloc: Global,
    circuit: &mut Circuit,
    a: &[Lit],
    i: usize,
    bit: Lit,
    sum: &[Lit],
) -> Result<Vec<Lit>, GateFault>
    requires inside { i ≤ length a.now }
    requires len { length sum.now ≡ length a.now }
    ensures word { IfOk result (λ w. w.items ≡ (mul_from a.now i (bit ∷ []) sum.now circuit.old).word) }
    ensures len { IfOk result (λ w. length w.items ≡ length a.now) }
    ensures net { OnOk result (circuit.new ≡ (mul_from a.now i (bit ∷ []) sum.now circuit.old).net) }
    ensures fits { OnOk result (IsWithinLimit circuit.new) }
    ensures too_many { IfErr result (λ fault. fault ≡ GateFault.TooMany → IsOverfull (mul_from a.now i (bit ∷ []) sum.now circuit.old).net) }
    ensures extends { IsExtensionOf circuit.old circuit.new }
{
    let row = row(alloc, circuit, a, i, bit)?;
    let next = add(alloc, circuit, sum, row.as_slice(), FALSE)?;
    Ok(next.word)
}

/// The product of two words, cut to their width.
pub fn mul(
    alloc: Global,
    circuit: &mut Circuit,
    a: &[Lit],
    b: &[Lit],
) -> Result<Vec<Lit>, GateFault>
    requires { length a.now ≡ length b.now }
    ensures word { IfOk result (λ w. w.items ≡ (mul_of a.now b.now circuit.old).word) }
    ensures len { IfOk result (λ w. length w.items ≡ length a.now) }
    ensures net { OnOk result (circuit.new ≡ (mul_of a.now b.now circuit.old).net) }
    ensures fits { OnOk result (IsWithinLimit circuit.new) }
    ensures too_many { IfErr result (λ fault. fault ≡ GateFault.TooMany → IsOverfull (mul_of a.now b.now circuit.old).net) }
    ensures extends { IsExtensionOf circuit.old circuit.new }
{
    let Ok(mut sum) = zeros(alloc, a.len()) else {
        return Err(GateFault::Memory);
    };
    for i in 0..b.len() {
        sum = add_row(alloc, circuit, a, i, b[i], sum.as_slice())?;
    }
    circuit.count();
    Ok(sum)
}
