ghost use Rattle.std.specs.Prelude.{◌≡◌, ℕ, ◌+◌, ◌<◌, Bool, length, IfOk, IfSome, IsSome};
ghost use Rattle.std.specs.List.{Contains};
ghost use Rattle.clause_core.specs.declared.literal.Lit.{Lit as Literal};
ghost use Rattle.gates.specs.Order.{IsOrdered, IsLiteralOf};
ghost use Rattle.lane_sim.specs.Lanes.{assignment_of, IsRunOf};
ghost use Rattle.lane_sim.specs.PlannedRuns.{place_of, ReadsAs};

use crate::free_bits::put_free;
use crate::layout::{Layout, lay_out, literal_in};
use crate::step::{Step, put_steps};
use crate::uses::last_uses;
use clause_core::Lit;
use gates::Circuit;
use std::alloc::{AllocError, Global};
use std::marker::Model;
use std::simd::u64x4;

/// How a circuit is run in few words: the word of a variable is written over once the variable is read no more, and a gate that nothing
/// reads is left out. So the words of a run stay in the processor's cache. Contracts see the circuit, how many words a run needs, how long
/// each variable is read, and where it stands.
#[derive(Drop)]
pub struct RunPlan<'c> {
    circuit: &'c Circuit,
    last: Vec<u32>,
    places: Vec<Lit>,
    steps: Vec<Step>,
    words: usize,
}

impl<'c> Model for RunPlan<'c> {
    ghost use Rattle.lane_sim.specs.PlannedRuns.{PlannedRun, AreStepsOf};

    ghost Value = { PlannedRun };

    ghost view = { λ p. record { net = p.circuit.now; words = p.words; last = p.last.items; places = p.places.items } };

    ghost invariant = { λ p. AreStepsOf (record { net = p.circuit.now; words = p.words; last = p.last.items; places = p.places.items }) p.steps.items };
}

impl<'c> RunPlan<'c> {
    /// The plan of a circuit's runs behind which the literals `wanted` are read. Where one is none of the circuit, it is left out.
    pub fn new(
        alloc: Global,
        circuit: &'c Circuit,
        wanted: &[Lit],
    ) -> Result<RunPlan<'c>, AllocError>
        requires { IsOrdered circuit.now }
        ensures net { IfOk result (λ plan. plan.net ≡ circuit.now) }
        ensures places { IfOk result (λ plan. (l : Literal) → Contains wanted.now l → IsLiteralOf circuit.now l → IsSome (place_of plan l)) }
    {
        let last = last_uses(alloc, circuit, wanted)?;
        let layout = lay_out(alloc, circuit, last.as_slice())?;
        let Layout {
            steps,
            places,
            holders,
            free: _,
        } = layout;
        Ok(RunPlan {
            circuit,
            last,
            places,
            steps,
            words: holders.len(),
        })
    }

    /// How many free bits the circuit has.
    pub fn bits(&self) -> usize
        ensures { result + 2 ≡ self.now.net.first }
    {
        self.circuit.first() as usize - 2
    }

    /// How many words a run needs.
    pub fn words(&self) -> usize
        ensures { result ≡ self.now.words }
    {
        self.words
    }

    /// The literal over words that says what a literal is behind a run, if it was wanted.
    pub fn place(&self, lit: Lit) -> Option<Lit>
        ensures place { result ≡ place_of self.now lit }
        ensures inside { IfSome result (λ place. place.variable < self.now.words) }
    {
        // What the limit ensures bounds the sum.
        self.circuit.limit();
        let end = self.circuit.first() as usize + self.circuit.count();
        let variable = lit.variable as usize;
        if variable == 0 || variable >= end || (self.last[variable] as usize) < end {
            return None;
        }
        Some(literal_in(self.places.as_slice(), lit))
    }

    /// Runs the circuit for 256 settings of its free bits, in words of any content: behind it, each wanted literal has its value at its
    /// place in each lane.
    pub fn run(&self, free: &[u64x4], words: &mut [u64x4])
        requires free { length free.now + 2 ≡ self.now.net.first }
        requires len { length words.old ≡ self.now.words }
        ensures { (j : ℕ) → j < 256 → (v : ℕ → Bool) → IsRunOf self.now.net free.now j v → ReadsAs self.now (assignment_of j words.new) v }
    {
        let steps = self.steps.as_slice();
        put_free(free, words);
        put_steps(steps, words);
    }
}
