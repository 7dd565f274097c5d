ghost use Rattle.std.specs.Prelude.{◌≡◌, ◌∷◌, [], length, IfOk, IfErr, OnOk, Bool, true};
ghost use Rattle.gates.specs.declared.circuit.GateFault.{GateFault};
ghost use Rattle.gates.specs.Netlists.{IsOverfull, IsWithinLimit, IsExtensionOf};
ghost use Rattle.word_circuits.specs.Divisions.{divide_step_of, divide_from, divide_of, part_of, signed_part_of, ratio_of, masked_of, division_of};

use crate::bits::{BitOperator, bitwise};
use crate::choices::{abs, choose, negate_where};
use crate::comparisons::is_zero;
use crate::sums::sub;
use crate::words::{copies, joined, reversed, top, zeros};
use clause_core::Lit;
use gates::{Circuit, FALSE, GateFault};
use std::alloc::Global;

/// What is wanted of a division.
#[derive(Clone, Copy)]
pub enum Part {
    Quotient,
    Remainder,
}

// A bit of the quotient, and what is left.
#[derive(Drop)]
struct Step {
    goes: Lit,
    rest: Vec<Lit>,
}

// Both parts of a division.
#[derive(Drop)]
struct QuotientAndRest {
    quotient: Vec<Lit>,
    rest: Vec<Lit>,
}

// Whether the divisor goes into the rest with the bit below it, and what is left.
#[tactic(auto, unfolding(crate::specs::Divisions::divide_step_of))]
fn divide_step(
    alloc: Global,
    circuit: &mut Circuit,
    bit: Lit,
    rest: &[Lit],
    b: &[Lit],
) -> Result<Step, GateFault>
    requires { length rest.now ≡ length b.now }
    ensures goes { IfOk result (λ s. s.goes ≡ (divide_step_of bit rest.now b.now circuit.old).goes) }
    ensures rest { IfOk result (λ s. s.rest.items ≡ (divide_step_of bit rest.now b.now circuit.old).rest) }
    ensures len { IfOk result (λ s. length s.rest.items ≡ length b.now) }
    ensures net { OnOk result (circuit.new ≡ (divide_step_of bit rest.now b.now circuit.old).net) }
    ensures fits { OnOk result (IsWithinLimit circuit.new) }
    ensures too_many { IfErr result (λ fault. fault ≡ GateFault.TooMany → IsOverfull (divide_step_of bit rest.now b.now circuit.old).net) }
    ensures extends { IsExtensionOf circuit.old circuit.new }
{
    let Ok(wide) = joined(alloc, &[bit], rest) else {
        return Err(GateFault::Memory);
    };
    let Ok(divisor) = joined(alloc, b, &[FALSE]) else {
        return Err(GateFault::Memory);
    };
    let difference = sub(alloc, circuit, wide.as_slice(), divisor.as_slice())?;
    let left = choose(
        alloc,
        circuit,
        difference.carry,
        &difference.word.as_slice()[..b.len()],
        &wide.as_slice()[..b.len()],
    )?;
    Ok(Step {
        goes: difference.carry,
        rest: left,
    })
}

// The quotient and the rest of two words as unsigned numbers.
fn divide(
    alloc: Global,
    circuit: &mut Circuit,
    a: &[Lit],
    b: &[Lit],
) -> Result<QuotientAndRest, GateFault>
    ensures quotient { IfOk result (λ r. r.quotient.items ≡ (divide_of a.now b.now circuit.old).quotient) }
    ensures rest { IfOk result (λ r. r.rest.items ≡ (divide_of a.now b.now circuit.old).rest) }
    ensures net { OnOk result (circuit.new ≡ (divide_of a.now b.now circuit.old).net) }
    ensures fits { OnOk result (IsWithinLimit circuit.new) }
    ensures too_many { IfErr result (λ fault. fault ≡ GateFault.TooMany → IsOverfull (divide_of a.now b.now circuit.old).net) }
    ensures extends { IsExtensionOf circuit.old circuit.new }
{
    let Ok(bits) = reversed(alloc, a) else {
        return Err(GateFault::Memory);
    };
    let Ok(mut rest) = zeros(alloc, b.len()) else {
        return Err(GateFault::Memory);
    };
    let mut quotient = Vec::new(alloc);
    for bit in &bits {
        let step = divide_step(alloc, circuit, *bit, rest.as_slice(), b)?;
        let Ok(()) = quotient.push(step.goes) else {
            return Err(GateFault::Memory);
        };
        rest = step.rest;
    }
    let Ok(quotient) = reversed(alloc, quotient.as_slice()) else {
        return Err(GateFault::Memory);
    };
    circuit.count();
    Ok(QuotientAndRest { quotient, rest })
}

// The wanted part of a division of two words as unsigned numbers.
fn divide_part(
    alloc: Global,
    circuit: &mut Circuit,
    part: Part,
    a: &[Lit],
    b: &[Lit],
) -> Result<Vec<Lit>, GateFault>
    ensures word { IfOk result (λ w. w.items ≡ (part_of part (divide_of a.now b.now circuit.old)).word) }
    ensures net { OnOk result (circuit.new ≡ (part_of part (divide_of a.now b.now circuit.old)).net) }
    ensures fits { OnOk result (IsWithinLimit circuit.new) }
    ensures too_many { IfErr result (λ fault. fault ≡ GateFault.TooMany → IsOverfull (part_of part (divide_of a.now b.now circuit.old)).net) }
    ensures extends { IsExtensionOf circuit.old circuit.new }
{
    let ratio = divide(alloc, circuit, a, b)?;
    match part {
        Part::Quotient => Ok(ratio.quotient),
        Part::Remainder => Ok(ratio.rest),
    }
}

// The quotient of signed words, from that of the words without their signs and their signs.
#[tactic(auto, unfolding(crate::specs::Divisions::signed_part_of))]
fn with_quotient_sign(
    alloc: Global,
    circuit: &mut Circuit,
    a: Lit,
    b: Lit,
    word: &[Lit],
) -> Result<Vec<Lit>, GateFault>
    ensures word { IfOk result (λ w. w.items ≡ (signed_part_of Part.Quotient a b (record { word = word.now; net = circuit.old })).word) }
    ensures net { OnOk result (circuit.new ≡ (signed_part_of Part.Quotient a b (record { word = word.now; net = circuit.old })).net) }
    ensures fits { OnOk result (IsWithinLimit circuit.new) }
    ensures too_many { IfErr result (λ fault. fault ≡ GateFault.TooMany → IsOverfull (signed_part_of Part.Quotient a b (record { word = word.now; net = circuit.old })).net) }
    ensures extends { IsExtensionOf circuit.old circuit.new }
{
    let sign = circuit.xor(a, b)?;
    negate_where(alloc, circuit, sign, word)
}

// The part of a division of signed words, from that of the words without their signs and their signs.
#[tactic(auto, unfolding(crate::specs::Divisions::signed_part_of))]
fn with_sign(
    alloc: Global,
    circuit: &mut Circuit,
    part: Part,
    a: Lit,
    b: Lit,
    word: &[Lit],
) -> Result<Vec<Lit>, GateFault>
    ensures word { IfOk result (λ w. w.items ≡ (signed_part_of part a b (record { word = word.now; net = circuit.old })).word) }
    ensures net { OnOk result (circuit.new ≡ (signed_part_of part a b (record { word = word.now; net = circuit.old })).net) }
    ensures fits { OnOk result (IsWithinLimit circuit.new) }
    ensures too_many { IfErr result (λ fault. fault ≡ GateFault.TooMany → IsOverfull (signed_part_of part a b (record { word = word.now; net = circuit.old })).net) }
    ensures extends { IsExtensionOf circuit.old circuit.new }
{
    match part {
        Part::Quotient => with_quotient_sign(alloc, circuit, a, b, word),
        Part::Remainder => negate_where(alloc, circuit, a, word),
    }
}

// The wanted part of a division of signed words, where the divisor is not zero.
#[tactic(auto, unfolding(crate::specs::Divisions::ratio_of))]
fn signed_ratio(
    alloc: Global,
    circuit: &mut Circuit,
    part: Part,
    a: &[Lit],
    b: &[Lit],
) -> Result<Vec<Lit>, GateFault>
    ensures word { IfOk result (λ w. w.items ≡ (ratio_of part true a.now b.now circuit.old).word) }
    ensures net { OnOk result (circuit.new ≡ (ratio_of part true a.now b.now circuit.old).net) }
    ensures fits { OnOk result (IsWithinLimit circuit.new) }
    ensures too_many { IfErr result (λ fault. fault ≡ GateFault.TooMany → IsOverfull (ratio_of part true a.now b.now circuit.old).net) }
    ensures extends { IsExtensionOf circuit.old circuit.new }
{
    let dividend = abs(alloc, circuit, true, a)?;
    let divisor = abs(alloc, circuit, true, b)?;
    let word = divide_part(
        alloc,
        circuit,
        part,
        dividend.as_slice(),
        divisor.as_slice(),
    )?;
    with_sign(alloc, circuit, part, top(a), top(b), word.as_slice())
}

// The wanted part of a division, where the divisor is not zero.
#[tactic(auto, unfolding(crate::specs::Divisions::ratio_of))]
fn ratio(
    alloc: Global,
    circuit: &mut Circuit,
    part: Part,
    signed: bool,
    a: &[Lit],
    b: &[Lit],
) -> Result<Vec<Lit>, GateFault>
    ensures word { IfOk result (λ w. w.items ≡ (ratio_of part signed a.now b.now circuit.old).word) }
    ensures net { OnOk result (circuit.new ≡ (ratio_of part signed a.now b.now circuit.old).net) }
    ensures fits { OnOk result (IsWithinLimit circuit.new) }
    ensures too_many { IfErr result (λ fault. fault ≡ GateFault.TooMany → IsOverfull (ratio_of part signed a.now b.now circuit.old).net) }
    ensures extends { IsExtensionOf circuit.old circuit.new }
{
    if signed {
        signed_ratio(alloc, circuit, part, a, b)
    } else {
        divide_part(alloc, circuit, part, a, b)
    }
}

// The word, and zero where `b` is zero.
#[tactic(auto, unfolding(crate::specs::Divisions::masked_of))]
fn masked(
    alloc: Global,
    circuit: &mut Circuit,
    b: &[Lit],
    word: &[Lit],
) -> Result<Vec<Lit>, GateFault>
    ensures word { IfOk result (λ w. w.items ≡ (masked_of b.now (record { word = word.now; net = circuit.old })).word) }
    ensures net { OnOk result (circuit.new ≡ (masked_of b.now (record { word = word.now; net = circuit.old })).net) }
    ensures fits { OnOk result (IsWithinLimit circuit.new) }
    ensures too_many { IfErr result (λ fault. fault ≡ GateFault.TooMany → IsOverfull (masked_of b.now (record { word = word.now; net = circuit.old })).net) }
    ensures extends { IsExtensionOf circuit.old circuit.new }
{
    let zero = is_zero(alloc, circuit, b)?;
    let Ok(mask) = copies(alloc, zero.negated(), word.len()) else {
        return Err(GateFault::Memory);
    };
    bitwise(alloc, circuit, BitOperator::And, mask.as_slice(), word)
}

/// The quotient or the remainder of two words, and zero where the divisor is zero.
#[tactic(auto, unfolding(crate::specs::Divisions::division_of))]
pub fn division(
    alloc: Global,
    circuit: &mut Circuit,
    part: Part,
    signed: bool,
    a: &[Lit],
    b: &[Lit],
) -> Result<Vec<Lit>, GateFault>
    ensures word { IfOk result (λ w. w.items ≡ (division_of part signed a.now b.now circuit.old).word) }
    ensures net { OnOk result (circuit.new ≡ (division_of part signed a.now b.now circuit.old).net) }
    ensures fits { OnOk result (IsWithinLimit circuit.new) }
    ensures too_many { IfErr result (λ fault. fault ≡ GateFault.TooMany → IsOverfull (division_of part signed a.now b.now circuit.old).net) }
    ensures extends { IsExtensionOf circuit.old circuit.new }
{
    let word = ratio(alloc, circuit, part, signed, a, b)?;
    masked(alloc, circuit, b, word.as_slice())
}
