// The gates in their order, each once, and where each is found again: most by two places near the number of its largest operand, so
// that gates which are made one after the other are found near one another; those that find both places taken by a map.
ghost use Rattle.std.specs.Prelude.{◌≡◌, ℕ, ◌+◌, ◌-◌, ◌^◌, ◌<◌, ◌↔◌, [], ◌∷◌, ◌++◌, length, slice_index, slice_index_or, IsTrue, IfSome, IfNone, OnOk, OnErr};
ghost use Rattle.gates.specs.declared.stored.StoredGate.{StoredGate};
ghost use Rattle.gates.specs.Places.{no_gate, form_number, scatter_of, slot_of, number_in, IsPlaced, Keeps, IsAbsent, AreDistinct};

use crate::stored::{Form, StoredGate};
use std::alloc::{AllocError, Global};
use std::collections::HashMap;
use std::marker::Model;

/// A list of gates, each once, in which a gate is found. Contracts see the list.
#[derive(Drop)]
pub struct GateStore {
    gates: Vec<StoredGate>,
    near: Vec<u32>,
    far: HashMap<StoredGate, u32>,
}

impl Model for GateStore {
    ghost use Rattle.std.specs.Prelude.{List};
    ghost use Rattle.gates.specs.declared.stored.StoredGate.{StoredGate as Kept};

    ghost Value = { List Kept };

    ghost use Rattle.gates.specs.StoreInside.{gates_in, IsFindable};

    ghost view = { gates_in };

    ghost invariant = { IsFindable };
}

fn form_number(form: Form) -> u64
    ensures { result ≡ form_number form }
{
    match form {
        Form::And => 0,
        Form::Xor => 8,
        Form::Mux => 16,
    }
}

// The gates of one largest operand are scattered over 1,024 places.
#[inline]
fn scatter(gate: &StoredGate) -> usize
    ensures scatter { result ≡ scatter_of gate.now }
    ensures small { result < 1024 }
{
    let form_and_signs = u64::from(gate.negative_one)
        + 2 * u64::from(gate.negative_two)
        + 4 * u64::from(gate.negative_three)
        + form_number(gate.form);
    let mixed = u64::from(gate.one) * 663_608_941
        + u64::from(gate.two) * 810_543_755
        + u64::from(gate.three) * 611_861_347
        + form_and_signs * 444_758_533;
    (mixed / 1_048_576 % 1024) as usize
}

// The first place of a gate.
#[inline]
fn slot(gate: &StoredGate) -> usize
    ensures slot { result ≡ slot_of gate.now }
    ensures small { result < 2 ^ 40 }
{
    2 * gate.one.max(gate.two).max(gate.three) as usize + scatter(gate)
}

// What stands at a place: 0 where it is free.
#[inline]
fn number_at(near: &[u32], place: usize) -> usize
    ensures { result ≡ slice_index near.now place }
{
    if place < near.len() {
        near[place] as usize
    } else {
        0
    }
}

// Whether a gate has that number.
#[inline]
fn has_number(gates: &[StoredGate], number: usize, gate: &StoredGate) -> bool
    ensures { IsTrue result ↔ ((number < length gates.now) × (slice_index_or gates.now number no_gate ≡ gate.now)) }
{
    number < gates.len() && gates[number] == *gate
}

#[inline(never)]
fn number_in_map(far: &HashMap<StoredGate, u32>, gate: StoredGate) -> Option<u32>
    ensures { result ≡ number_in far.now gate }
{
    far.get(&gate).copied()
}

// Makes the places of a gate, free ones, unless they are there.
#[inline]
fn cover(near: &mut Vec<u32>, place: usize) -> Result<(), AllocError>
    requires { place < 2 ^ 40 }
    ensures keeps { Keeps near.old.items near.new.items }
    ensures covers { OnOk result (place + 1 < length near.new.items) }
{
    if place + 1 < near.len() {
        return Ok(());
    }
    near.resize(place + 1024, 0)
}

// Gives a gate its place, or puts it into the map.
fn settle(
    near: &mut Vec<u32>,
    far: &mut HashMap<StoredGate, u32>,
    gate: StoredGate,
    number: u32,
) -> Result<(), AllocError>
    requires { number < 2 ^ 32 - 1 }
    ensures near { Keeps near.old.items near.new.items }
    ensures far { (s : StoredGate) → (s ≡ gate → ⊥) → number_in far.new s ≡ number_in far.old s }
    ensures placed { OnOk result (IsPlaced near.new.items (number_in far.new) gate number) }
{
    let place = slot(&gate);
    cover(near, place)?;
    if near[place] == 0 {
        near[place] = number + 1;
        return Ok(());
    }
    if near[place + 1] == 0 {
        near[place + 1] = number + 1;
        return Ok(());
    }
    let Ok(_) = far.insert(gate, number) else {
        return Err(AllocError);
    };
    Ok(())
}

impl GateStore {
    /// The list of no gate.
    pub fn new(alloc: Global) -> GateStore
        ensures { result ≡ [] }
    {
        GateStore {
            gates: Vec::new(alloc),
            near: Vec::new(alloc),
            far: HashMap::new(alloc),
        }
    }

    /// How many gates there are.
    pub fn len(&self) -> usize
        ensures { result ≡ length self.now }
    {
        self.gates.len()
    }

    /// The gates in their order.
    pub fn as_slice(&self) -> &[StoredGate]
        ensures { result.now ≡ self.now }
    {
        self.gates.as_slice()
    }

    /// The number of a gate.
    pub fn number(&self, gate: StoredGate) -> Option<usize>
        ensures found { IfSome result (λ k. (k < length self.now) × (slice_index_or self.now k no_gate ≡ gate)) }
        ensures absent { IfNone result (IsAbsent self.now gate) }
        ensures distinct { AreDistinct self.now }
    {
        let gates = self.gates.as_slice();
        let place = slot(&gate);
        let first = number_at(self.near.as_slice(), place);
        if first == 0 {
            return None;
        }
        if has_number(gates, first - 1, &gate) {
            return Some(first - 1);
        }
        let second = number_at(self.near.as_slice(), place + 1);
        if second == 0 {
            return None;
        }
        if has_number(gates, second - 1, &gate) {
            return Some(second - 1);
        }
        let Some(third) = number_in_map(&self.far, gate) else {
            return None;
        };
        if has_number(gates, third as usize, &gate) {
            return Some(third as usize);
        }
        None
    }

    /// Puts a gate behind the others.
    pub fn push(&mut self, gate: StoredGate) -> Result<(), AllocError>
        requires absent { IsAbsent self.old gate }
        requires few { length self.old < 2 ^ 32 - 1 }
        ensures added { OnOk result (self.new ≡ self.old ++ gate ∷ []) }
        ensures same { OnErr result (self.new ≡ self.old) }
    {
        let number = self.gates.len() as u32;
        settle(&mut self.near, &mut self.far, gate, number)?;
        let Ok(()) = self.gates.push(gate) else {
            return Err(AllocError);
        };
        Ok(())
    }
}
