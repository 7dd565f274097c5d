ghost use Rattle.std.specs.Prelude.{◌≡◌, length, IfOk, IfErr, OnOk, Bool, MatchResult, Ok, Err};
ghost use Rattle.clause_core.specs.Values.{negation};
ghost use Rattle.gates.specs.declared.circuit.GateFault.{GateFault};
ghost use Rattle.gates.specs.Netlists.{IsOverfull, IsWithinLimit, IsExtensionOf};
ghost use Rattle.word_circuits.specs.Comparisons.{same_step_of, eq_of, is_zero_of, flip_top, biased, lt_of, comparison_of, outside_of};

use crate::sums::sub;
use crate::words::{constant, zeros};
use clause_core::Lit;
use gates::{Circuit, GateFault, TRUE};
use std::alloc::{AllocError, Global};

/// A comparison of two words.
#[derive(Clone, Copy)]
pub enum Comparison {
    Equal,
    NotEqual,
    Less,
    Greater,
    LessOrEqual,
    GreaterOrEqual,
}

// Whether two bits are the same, where those below are.
#[tactic(auto, unfolding(crate::specs::Comparisons::same_step_of))]
fn same_step(circuit: &mut Circuit, so_far: Lit, a: Lit, b: Lit) -> Result<Lit, GateFault>
    ensures lit { IfOk result (λ l. l ≡ (same_step_of so_far a b circuit.old).lit) }
    ensures net { OnOk result (circuit.new ≡ (same_step_of so_far a b circuit.old).net) }
    ensures fits { OnOk result (IsWithinLimit circuit.new) }
    ensures too_many { IfErr result (λ fault. fault ≡ GateFault.TooMany → IsOverfull (same_step_of so_far a b circuit.old).net) }
    ensures extends { IsExtensionOf circuit.old circuit.new }
{
    let x = circuit.xor(a, b)?;
    circuit.and(so_far, x.negated())
}

/// Whether two words are equal.
pub fn equal(circuit: &mut Circuit, a: &[Lit], b: &[Lit]) -> Result<Lit, GateFault>
    requires { length a.now ≡ length b.now }
    ensures lit { IfOk result (λ l. l ≡ (eq_of a.now b.now circuit.old).lit) }
    ensures net { OnOk result (circuit.new ≡ (eq_of a.now b.now circuit.old).net) }
    ensures fits { OnOk result (IsWithinLimit circuit.new) }
    ensures too_many { IfErr result (λ fault. fault ≡ GateFault.TooMany → IsOverfull (eq_of a.now b.now circuit.old).net) }
    ensures extends { IsExtensionOf circuit.old circuit.new }
{
    let mut same = TRUE;
    for i in 0..a.len() {
        same = same_step(circuit, same, a[i], b[i])?;
    }
    circuit.count();
    Ok(same)
}

/// Whether a word is zero.
pub fn is_zero(alloc: Global, circuit: &mut Circuit, word: &[Lit]) -> Result<Lit, GateFault>
    ensures lit { IfOk result (λ l. l ≡ (is_zero_of word.now circuit.old).lit) }
    ensures net { OnOk result (circuit.new ≡ (is_zero_of word.now circuit.old).net) }
    ensures fits { OnOk result (IsWithinLimit circuit.new) }
    ensures too_many { IfErr result (λ fault. fault ≡ GateFault.TooMany → IsOverfull (is_zero_of word.now circuit.old).net) }
    ensures extends { IsExtensionOf circuit.old circuit.new }
{
    let Ok(zero) = zeros(alloc, word.len()) else {
        return Err(GateFault::Memory);
    };
    equal(circuit, word, zero.as_slice())
}

// The word with its top literal negated.
fn flipped(alloc: Global, word: &[Lit]) -> Result<Vec<Lit>, AllocError>
    ensures word { IfOk result (λ w. w.items ≡ flip_top word.now) }
    ensures len { IfOk result (λ w. length w.items ≡ length word.now) }
{
    let mut flipped = Vec::new(alloc);
    let Some((top, low)) = word.split_last() else {
        return Ok(flipped);
    };
    flipped.extend_from_slice(low)?;
    flipped.push(top.negated())?;
    Ok(flipped)
}

// The word whose unsigned order is the order of `word`.
fn biased(alloc: Global, signed: bool, word: &[Lit]) -> Result<Vec<Lit>, AllocError>
    ensures word { IfOk result (λ w. w.items ≡ biased signed word.now) }
    ensures len { IfOk result (λ w. length w.items ≡ length word.now) }
{
    if signed {
        return flipped(alloc, word);
    }
    let mut copy = Vec::new(alloc);
    copy.extend_from_slice(word)?;
    Ok(copy)
}

/// Whether `a` is less than `b`, as signed or as unsigned numbers.
pub fn less(
    alloc: Global,
    circuit: &mut Circuit,
    signed: bool,
    a: &[Lit],
    b: &[Lit],
) -> Result<Lit, GateFault>
    requires { length a.now ≡ length b.now }
    ensures lit { IfOk result (λ l. l ≡ (lt_of signed a.now b.now circuit.old).lit) }
    ensures net { OnOk result (circuit.new ≡ (lt_of signed a.now b.now circuit.old).net) }
    ensures fits { OnOk result (IsWithinLimit circuit.new) }
    ensures too_many { IfErr result (λ fault. fault ≡ GateFault.TooMany → IsOverfull (lt_of signed a.now b.now circuit.old).net) }
    ensures extends { IsExtensionOf circuit.old circuit.new }
{
    let Ok(low) = biased(alloc, signed, a) else {
        return Err(GateFault::Memory);
    };
    let Ok(high) = biased(alloc, signed, b) else {
        return Err(GateFault::Memory);
    };
    let difference = sub(alloc, circuit, low.as_slice(), high.as_slice())?;
    Ok(difference.carry.negated())
}

/// A comparison of two words, as signed or as unsigned numbers.
pub fn compare(
    alloc: Global,
    circuit: &mut Circuit,
    comparison: Comparison,
    signed: bool,
    a: &[Lit],
    b: &[Lit],
) -> Result<Lit, GateFault>
    requires { length a.now ≡ length b.now }
    ensures lit { IfOk result (λ l. l ≡ (comparison_of comparison signed a.now b.now circuit.old).lit) }
    ensures net { OnOk result (circuit.new ≡ (comparison_of comparison signed a.now b.now circuit.old).net) }
    ensures fits { OnOk result (IsWithinLimit circuit.new) }
    ensures too_many { IfErr result (λ fault. fault ≡ GateFault.TooMany → IsOverfull (comparison_of comparison signed a.now b.now circuit.old).net) }
    ensures extends { IsExtensionOf circuit.old circuit.new }
{
    match comparison {
        Comparison::Equal => equal(circuit, a, b),
        Comparison::NotEqual => negated(equal(circuit, a, b)),
        Comparison::Less => less(alloc, circuit, signed, a, b),
        Comparison::Greater => less(alloc, circuit, signed, b, a),
        Comparison::LessOrEqual => negated(less(alloc, circuit, signed, b, a)),
        Comparison::GreaterOrEqual => negated(less(alloc, circuit, signed, a, b)),
    }
}

// The negative of a literal that was made.
fn negated(made: Result<Lit, GateFault>) -> Result<Lit, GateFault>
    ensures { MatchResult made (λ l. result ≡ Ok (negation l)) (λ fault. result ≡ Err fault) }
{
    match made {
        Ok(lit) => Ok(lit.negated()),
        Err(fault) => Err(fault),
    }
}

/// Whether a word lies below `low` or above `high`.
#[tactic(auto, unfolding(crate::specs::Comparisons::outside_of))]
pub fn outside(
    alloc: Global,
    circuit: &mut Circuit,
    signed: bool,
    word: &[Lit],
    low: i128,
    high: i128,
) -> Result<Lit, GateFault>
    ensures lit { IfOk result (λ l. l ≡ (outside_of signed word.now low high circuit.old).lit) }
    ensures net { OnOk result (circuit.new ≡ (outside_of signed word.now low high circuit.old).net) }
    ensures fits { OnOk result (IsWithinLimit circuit.new) }
    ensures too_many { IfErr result (λ fault. fault ≡ GateFault.TooMany → IsOverfull (outside_of signed word.now low high circuit.old).net) }
    ensures extends { IsExtensionOf circuit.old circuit.new }
{
    let Ok(least) = constant(alloc, word.len(), low) else {
        return Err(GateFault::Memory);
    };
    let Ok(greatest) = constant(alloc, word.len(), high) else {
        return Err(GateFault::Memory);
    };
    let below = less(alloc, circuit, signed, word, least.as_slice())?;
    let above = less(alloc, circuit, signed, greatest.as_slice(), word)?;
    circuit.or(below, above)
}
