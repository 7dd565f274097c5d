ghost use Rattle.std.specs.Prelude.{◌≡◌, ℕ, ◌<◌, ◌≤◌, ◌+◌, ◌-◌, ◌^◌, [], length, slice_index_or, IfOk, IfErr, OnOk};
ghost use Rattle.clause_core.specs.declared.gate.Gate.{Gate};
ghost use Rattle.gates.specs.Netlists.{Netlist, make, IsOverfull, IsWithinLimit, IsExtensionOf};
ghost use Rattle.gates.specs.Order.{end_of};
ghost use Rattle.gates.specs.Rules.{and_of, or_of, xor_of, mux_of};

use crate::plan::{Plan, and_plan, mux_plan, or_plan, xor_plan};
use crate::store::GateStore;
use crate::stored::{gate_of, stored};
use clause_core::{Gate, Lit};
use std::alloc::Global;
use std::marker::Model;

/// Why a gate was not made.
#[derive(Clone, Copy)]
pub enum GateFault {
    /// The circuit has as many gates as it may have, and needs one more.
    TooMany,
    /// There is no memory left.
    Memory,
}

/// A circuit over free bits: variable 1 is TRUE, the free bits follow, then the gates in the order
/// in which they were made, each once. Contracts see the first gate's variable, how many gates there
/// may be, and the list of gates.
#[derive(Drop)]
pub struct Circuit {
    first: u32,
    limit: u32,
    gates: GateStore,
}

impl Model for Circuit {
    ghost use Rattle.gates.specs.Netlists.{Netlist};

    ghost Value = { Netlist };

    ghost use Rattle.gates.specs.Inside.{netlist_of, IsWithin};

    ghost view = { netlist_of };

    ghost invariant = { IsWithin };
}

impl Circuit {
    /// The circuit of no gate over that many free bits.
    pub fn new(alloc: Global, free: u32, limit: u32) -> Circuit
        requires { free + limit < 2 ^ 31 - 1 }
        ensures { result ≡ record { first = free + 2; limit = limit; gates = [] } }
    {
        Circuit {
            first: free + 2,
            limit,
            gates: GateStore::new(alloc),
        }
    }

    /// The variable of the first gate, or of the one that will be made first.
    pub fn first(&self) -> u32
        ensures first { result ≡ self.now.first }
        ensures one { 1 < result }
    {
        self.first
    }

    /// How many gates there are.
    pub fn count(&self) -> usize
        ensures count { result ≡ length self.now.gates }
        ensures fits { IsWithinLimit self.now }
    {
        let _ = self.limit;
        self.gates.len()
    }

    /// How many gates there may be.
    pub fn limit(&self) -> u32
        ensures limit { result ≡ self.now.limit }
        ensures small { self.now.first + result ≤ 2 ^ 31 }
    {
        let _ = self.first;
        self.limit
    }

    /// The gate of a place in the order in which they were made.
    #[inline]
    pub fn gate(&self, place: usize) -> Gate
        requires { place < length self.now.gates }
        ensures { (g : Gate) → result ≡ slice_index_or self.now.gates place g }
    {
        gate_of(self.gates.as_slice()[place])
    }

    /// The literal that a plan comes to.
    pub fn make(&mut self, plan: Plan) -> Result<Lit, GateFault>
        ensures lit { IfOk result (λ l. l ≡ (make plan self.old).lit) }
        ensures net { OnOk result (self.new ≡ (make plan self.old).net) }
        ensures fits { OnOk result (IsWithinLimit self.new) }
        ensures too_many { IfErr result (λ fault. fault ≡ GateFault.TooMany → IsOverfull (make plan self.old).net) }
        ensures extends { IsExtensionOf self.old self.new }
    {
        match plan {
            Plan::Ready(lit) => {
                self.count();
                Ok(lit)
            }
            Plan::Ask(gate, negative) => self.ask(gate, negative),
        }
    }

    // The literal of a gate, which is made unless it is there.
    fn ask(&mut self, gate: Gate, negative: bool) -> Result<Lit, GateFault>
        ensures lit { IfOk result (λ l. l ≡ (make (Plan.Ask gate negative) self.old).lit) }
        ensures net { OnOk result (self.new ≡ (make (Plan.Ask gate negative) self.old).net) }
        ensures fits { OnOk result (IsWithinLimit self.new) }
        ensures too_many { IfErr result (λ fault. fault ≡ GateFault.TooMany → IsOverfull (make (Plan.Ask gate negative) self.old).net) }
        ensures extends { IsExtensionOf self.old self.new }
    {
        let kept = stored(gate);
        if let Some(index) = self.gates.number(kept) {
            return Ok(Lit {
                variable: self.first + index as u32,
                negative,
            });
        }
        let count = self.gates.len();
        if count >= self.limit as usize {
            return Err(GateFault::TooMany);
        }
        let Ok(()) = self.gates.push(kept) else {
            return Err(GateFault::Memory);
        };
        Ok(Lit {
            variable: self.first + count as u32,
            negative,
        })
    }

    /// Both of two literals.
    #[tactic(auto, unfolding(crate::specs::Rules::and_of))]
    pub fn and(&mut self, a: Lit, b: Lit) -> Result<Lit, GateFault>
        ensures lit { IfOk result (λ l. l ≡ (and_of a b self.old).lit) }
        ensures net { OnOk result (self.new ≡ (and_of a b self.old).net) }
        ensures fits { OnOk result (IsWithinLimit self.new) }
        ensures too_many { IfErr result (λ fault. fault ≡ GateFault.TooMany → IsOverfull (and_of a b self.old).net) }
        ensures extends { IsExtensionOf self.old self.new }
    {
        self.make(and_plan(a, b))
    }

    /// One of two literals, or both.
    #[tactic(auto, unfolding(crate::specs::Rules::or_of))]
    pub fn or(&mut self, a: Lit, b: Lit) -> Result<Lit, GateFault>
        ensures lit { IfOk result (λ l. l ≡ (or_of a b self.old).lit) }
        ensures net { OnOk result (self.new ≡ (or_of a b self.old).net) }
        ensures fits { OnOk result (IsWithinLimit self.new) }
        ensures too_many { IfErr result (λ fault. fault ≡ GateFault.TooMany → IsOverfull (or_of a b self.old).net) }
        ensures extends { IsExtensionOf self.old self.new }
    {
        self.make(or_plan(a, b))
    }

    /// Exactly one of two literals.
    #[tactic(auto, unfolding(crate::specs::Rules::xor_of))]
    pub fn xor(&mut self, a: Lit, b: Lit) -> Result<Lit, GateFault>
        ensures lit { IfOk result (λ l. l ≡ (xor_of a b self.old).lit) }
        ensures net { OnOk result (self.new ≡ (xor_of a b self.old).net) }
        ensures fits { OnOk result (IsWithinLimit self.new) }
        ensures too_many { IfErr result (λ fault. fault ≡ GateFault.TooMany → IsOverfull (xor_of a b self.old).net) }
        ensures extends { IsExtensionOf self.old self.new }
    {
        self.make(xor_plan(a, b))
    }

    /// `a` where `c` is true, else `b`.
    #[tactic(auto, unfolding(crate::specs::Rules::mux_of))]
    pub fn mux(&mut self, c: Lit, a: Lit, b: Lit) -> Result<Lit, GateFault>
        ensures lit { IfOk result (λ l. l ≡ (mux_of c a b self.old).lit) }
        ensures net { OnOk result (self.new ≡ (mux_of c a b self.old).net) }
        ensures fits { OnOk result (IsWithinLimit self.new) }
        ensures too_many { IfErr result (λ fault. fault ≡ GateFault.TooMany → IsOverfull (mux_of c a b self.old).net) }
        ensures extends { IsExtensionOf self.old self.new }
    {
        self.make(mux_plan(c, a, b))
    }
}
