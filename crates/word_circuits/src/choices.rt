ghost use Rattle.std.specs.Prelude.{◌≡◌, length, IfOk, IfErr, OnOk};
ghost use Rattle.gates.specs.declared.circuit.GateFault.{GateFault};
ghost use Rattle.gates.specs.Netlists.{IsOverfull, IsWithinLimit, IsExtensionOf};
ghost use Rattle.word_circuits.specs.Choices.{choose_of, sel_of, min_of, max_of, negated_where, abs_of};

use crate::comparisons::less;
use crate::sums::neg;
use crate::words::top;
use clause_core::Lit;
use gates::{Circuit, GateFault};
use std::alloc::Global;

/// `a` where the literal is true, else `b`.
pub fn choose(
    alloc: Global,
    circuit: &mut Circuit,
    c: Lit,
    a: &[Lit],
    b: &[Lit],
) -> Result<Vec<Lit>, GateFault>
    requires { length a.now ≡ length b.now }
    ensures word { IfOk result (λ w. w.items ≡ (choose_of c a.now b.now circuit.old).word) }
    ensures len { IfOk result (λ w. length w.items ≡ length a.now) }
    ensures net { OnOk result (circuit.new ≡ (choose_of c a.now b.now circuit.old).net) }
    ensures fits { OnOk result (IsWithinLimit circuit.new) }
    ensures too_many { IfErr result (λ fault. fault ≡ GateFault.TooMany → IsOverfull (choose_of c a.now b.now circuit.old).net) }
    ensures extends { IsExtensionOf circuit.old circuit.new }
{
    let mut word = Vec::new(alloc);
    for i in 0..a.len() {
        let bit = circuit.mux(c, a[i], b[i])?;
        let Ok(()) = word.push(bit) else {
            return Err(GateFault::Memory);
        };
    }
    circuit.count();
    Ok(word)
}

/// SEL: the second word where the literal is true, else the first.
pub fn sel(
    alloc: Global,
    circuit: &mut Circuit,
    g: Lit,
    a: &[Lit],
    b: &[Lit],
) -> Result<Vec<Lit>, GateFault>
    requires { length a.now ≡ length b.now }
    ensures word { IfOk result (λ w. w.items ≡ (sel_of g a.now b.now circuit.old).word) }
    ensures net { OnOk result (circuit.new ≡ (sel_of g a.now b.now circuit.old).net) }
    ensures fits { OnOk result (IsWithinLimit circuit.new) }
    ensures too_many { IfErr result (λ fault. fault ≡ GateFault.TooMany → IsOverfull (sel_of g a.now b.now circuit.old).net) }
    ensures extends { IsExtensionOf circuit.old circuit.new }
{
    choose(alloc, circuit, g, b, a)
}

/// The lesser of two words.
pub fn min(
    alloc: Global,
    circuit: &mut Circuit,
    signed: bool,
    a: &[Lit],
    b: &[Lit],
) -> Result<Vec<Lit>, GateFault>
    requires { length a.now ≡ length b.now }
    ensures word { IfOk result (λ w. w.items ≡ (min_of signed a.now b.now circuit.old).word) }
    ensures net { OnOk result (circuit.new ≡ (min_of signed a.now b.now circuit.old).net) }
    ensures fits { OnOk result (IsWithinLimit circuit.new) }
    ensures too_many { IfErr result (λ fault. fault ≡ GateFault.TooMany → IsOverfull (min_of signed a.now b.now circuit.old).net) }
    ensures extends { IsExtensionOf circuit.old circuit.new }
{
    let less = less(alloc, circuit, signed, b, a)?;
    choose(alloc, circuit, less, b, a)
}

/// The greater of two words.
pub fn max(
    alloc: Global,
    circuit: &mut Circuit,
    signed: bool,
    a: &[Lit],
    b: &[Lit],
) -> Result<Vec<Lit>, GateFault>
    requires { length a.now ≡ length b.now }
    ensures word { IfOk result (λ w. w.items ≡ (max_of signed a.now b.now circuit.old).word) }
    ensures net { OnOk result (circuit.new ≡ (max_of signed a.now b.now circuit.old).net) }
    ensures fits { OnOk result (IsWithinLimit circuit.new) }
    ensures too_many { IfErr result (λ fault. fault ≡ GateFault.TooMany → IsOverfull (max_of signed a.now b.now circuit.old).net) }
    ensures extends { IsExtensionOf circuit.old circuit.new }
{
    let less = less(alloc, circuit, signed, a, b)?;
    choose(alloc, circuit, less, b, a)
}

/// A word, negated where the literal is true.
pub(crate) fn negate_where(
    alloc: Global,
    circuit: &mut Circuit,
    c: Lit,
    a: &[Lit],
) -> Result<Vec<Lit>, GateFault>
    ensures word { IfOk result (λ w. w.items ≡ (negated_where c a.now circuit.old).word) }
    ensures len { IfOk result (λ w. length w.items ≡ length a.now) }
    ensures net { OnOk result (circuit.new ≡ (negated_where c a.now circuit.old).net) }
    ensures fits { OnOk result (IsWithinLimit circuit.new) }
    ensures too_many { IfErr result (λ fault. fault ≡ GateFault.TooMany → IsOverfull (negated_where c a.now circuit.old).net) }
    ensures extends { IsExtensionOf circuit.old circuit.new }
{
    let negative = neg(alloc, circuit, a)?;
    choose(alloc, circuit, c, negative.word.as_slice(), a)
}

/// A word without its sign.
pub fn abs(
    alloc: Global,
    circuit: &mut Circuit,
    signed: bool,
    a: &[Lit],
) -> Result<Vec<Lit>, GateFault>
    ensures word { IfOk result (λ w. w.items ≡ (abs_of signed a.now circuit.old).word) }
    ensures len { IfOk result (λ w. length w.items ≡ length a.now) }
    ensures net { OnOk result (circuit.new ≡ (abs_of signed a.now circuit.old).net) }
    ensures fits { OnOk result (IsWithinLimit circuit.new) }
    ensures too_many { IfErr result (λ fault. fault ≡ GateFault.TooMany → IsOverfull (abs_of signed a.now circuit.old).net) }
    ensures extends { IsExtensionOf circuit.old circuit.new }
{
    if signed {
        return negate_where(alloc, circuit, top(a), a);
    }
    let mut word = Vec::new(alloc);
    let Ok(()) = word.extend_from_slice(a) else {
        return Err(GateFault::Memory);
    };
    circuit.count();
    Ok(word)
}
