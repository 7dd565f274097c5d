ghost use Rattle.std.specs.Prelude.{◌≡◌};
ghost use Rattle.gates.specs.Plans.{and_plan, or_plan, xor_plan, mux_plan, not_plan};

use crate::literals::{FALSE, are_opposite, are_same, is_false, is_true, plain};
use clause_core::{Gate, Lit};

/// What a rule comes to: a literal that is there already, or a gate to ask for, negated or not.
#[derive(Clone, Copy)]
pub enum Plan {
    Ready(Lit),
    Ask(Gate, bool),
}

impl Plan {
    #[inline]
    fn negated(self) -> Plan
        ensures { result ≡ not_plan self }
    {
        match self {
            Plan::Ready(lit) => Plan::Ready(lit.negated()),
            Plan::Ask(gate, negative) => Plan::Ask(gate, !negative),
        }
    }
}

/// The rules of AND.
#[inline]
pub fn and_plan(a: Lit, b: Lit) -> Plan
    ensures { result ≡ and_plan a b }
{
    if is_false(a) || is_false(b) || are_opposite(a, b) {
        return Plan::Ready(FALSE);
    }
    if is_true(a) {
        return Plan::Ready(b);
    }
    if is_true(b) || are_same(a, b) {
        return Plan::Ready(a);
    }
    if a.variable < b.variable {
        Plan::Ask(Gate::And(a, b), false)
    } else {
        Plan::Ask(Gate::And(b, a), false)
    }
}

/// The rules of OR, which is AND of the negatives, negated.
#[inline]
pub fn or_plan(a: Lit, b: Lit) -> Plan
    ensures { result ≡ or_plan a b }
{
    and_plan(a.negated(), b.negated()).negated()
}

/// The rules of XOR.
#[inline]
pub fn xor_plan(a: Lit, b: Lit) -> Plan
    ensures { result ≡ xor_plan a b }
{
    let low = a.variable.min(b.variable);
    let high = a.variable.max(b.variable);
    let same = a.negative == b.negative;
    if low == high {
        return Plan::Ready(Lit {
            variable: 1,
            negative: same,
        });
    }
    if low == 1 {
        return Plan::Ready(Lit {
            variable: high,
            negative: same,
        });
    }
    Plan::Ask(Gate::Xor(plain(low), plain(high)), !same)
}

/// The rules of MUX: `a` where `c` is true, else `b`.
#[inline]
pub fn mux_plan(c: Lit, a: Lit, b: Lit) -> Plan
    ensures { result ≡ mux_plan c a b }
{
    if is_true(c) {
        return Plan::Ready(a);
    }
    if is_false(c) {
        return Plan::Ready(b);
    }
    if are_same(a, b) {
        return Plan::Ready(a);
    }
    if are_opposite(a, b) {
        return xor_plan(c, b);
    }
    if is_true(a) || are_same(a, c) {
        return or_plan(c, b);
    }
    if is_false(a) || are_opposite(a, c) {
        return and_plan(c.negated(), b);
    }
    if is_true(b) || are_opposite(b, c) {
        return or_plan(c.negated(), a);
    }
    if is_false(b) || are_same(b, c) {
        return and_plan(c, a);
    }
    Plan::Ask(Gate::Mux(c, a, b), false)
}
