ghost use Rattle.std.specs.Prelude.{◌≡◌, ℕ, ◌+◌, ◌≤◌, ◌<◌, ◌^◌, List, length, slice_index, IsTrue, IfOk, IfSome, OnOk};
ghost use Rattle.gates.specs.Literals.{plain};
ghost use Rattle.gates.specs.Order.{IsOrdered, end_of};
ghost use Rattle.lane_sim.specs.Choices.{IsChoiceBelow};
ghost use Rattle.lane_sim.specs.Uses.{AreReadFrom};
ghost use Rattle.lane_sim.specs.Layouts.{place_in, literal_in, choice_in, IsOver, IsTaken, IsLaidOut};

use crate::choice::{Choice, choice_of};
use crate::step::{Step, step_of};
use clause_core::Lit;
use gates::Circuit;
use std::alloc::{AllocError, Global};

/// Where the words of variables are put, and the steps that write them.
#[derive(Drop)]
pub struct Layout {
    pub steps: Vec<Step>,
    // the literal over words that says what each variable is
    pub places: Vec<Lit>,
    // the variable that each word holds
    pub holders: Vec<u32>,
    // words that may be free
    pub free: Vec<u32>,
}

// Whether a word holds a variable that is read no more, neither by the variable x nor by a later one.
fn is_over(holders: &[u32], last: &[u32], x: u32, word: u32) -> bool
    ensures { IsTrue result → IsOver holders.now last.now x word }
{
    let place = word as usize;
    if place >= holders.len() {
        return false;
    }
    let holder = holders[place] as usize;
    holder < last.len() && last[holder] <= x
}

// A word that is free.
fn free_word(free: &mut Vec<u32>, holders: &[u32], last: &[u32], x: u32) -> Option<u32>
    ensures { IfSome result (λ word. IsOver holders.now last.now x word) }
{
    while let Some(word) = free.pop() {
        if is_over(holders, last, x, word) {
            return Some(word);
        }
    }
    None
}

// Gives the variable x a word: one that is free, or a new one.
fn take_word(
    free: &mut Vec<u32>,
    holders: &mut Vec<u32>,
    last: &[u32],
    x: u32,
) -> Result<u32, AllocError>
    requires { length holders.old.items < 2 ^ 31 }
    ensures { IfOk result (IsTaken last.now x holders.old.items holders.new.items) }
{
    if let Some(word) = free_word(free, holders.as_slice(), last, x) {
        holders[word as usize] = x;
        return Ok(word);
    }
    let word = holders.len() as u32;
    holders.push(x)?;
    Ok(word)
}

// The word of a variable may be free where x is the last that reads it.
fn release(
    free: &mut Vec<u32>,
    places: &[Lit],
    last: &[u32],
    variable: u32,
    x: u32,
) -> Result<(), AllocError>
    requires places { variable < length places.now }
    requires last { variable < length last.now }
{
    if last[variable as usize] == x {
        free.push(places[variable as usize].variable)?;
    }
    Ok(())
}

// The word of each operand may be free where x is the last that reads it.
fn release_operands(
    free: &mut Vec<u32>,
    places: &[Lit],
    last: &[u32],
    choice: Choice,
    x: u32,
) -> Result<(), AllocError>
    requires below { IsChoiceBelow x choice }
    requires places { x < length places.now }
    requires last { x < length last.now }
{
    release(free, places, last, choice.condition.variable, x)?;
    release(free, places, last, choice.yes.variable, x)?;
    release(free, places, last, choice.no.variable, x)
}

/// The literal over words that says what a literal is.
pub(crate) fn literal_in(places: &[Lit], lit: Lit) -> Lit
    requires { lit.variable < length places.now }
    ensures { result ≡ literal_in places.now lit }
{
    let place = places[lit.variable as usize];
    Lit {
        variable: place.variable,
        negative: place.negative != lit.negative,
    }
}

// The choice between literals over words that says what a choice is.
fn choice_in(places: &[Lit], choice: Choice) -> Choice
    requires { IsChoiceBelow (length places.now) choice }
    ensures { result ≡ choice_in places.now choice }
{
    Choice {
        condition: literal_in(places, choice.condition),
        yes: literal_in(places, choice.yes),
        no: literal_in(places, choice.no),
    }
}

// Each variable at the place of its number.
fn own_places(alloc: Global, count: usize) -> Result<Vec<Lit>, AllocError>
    requires { count ≤ 2 ^ 31 }
    ensures len { IfOk result (λ places. length places.items ≡ count) }
    ensures own { IfOk result (λ places. (x : ℕ) → x < count → place_in places.items x ≡ plain x) }
{
    let mut places = Vec::new(alloc);
    for x in 0..count {
        places.push(Lit {
            variable: x as u32,
            negative: false,
        })?;
    }
    Ok(places)
}

// Words that hold the variables of their numbers.
fn own_holders(alloc: Global, count: u32) -> Result<Vec<u32>, AllocError>
    ensures len { IfOk result (λ holders. length holders.items ≡ count) }
    ensures own { IfOk result (λ holders. (x : ℕ) → x < count → slice_index holders.items x ≡ x) }
{
    let mut holders = Vec::new(alloc);
    for x in 0..count {
        holders.push(x)?;
    }
    Ok(holders)
}

impl Layout {
    // TRUE and the free bits stand at their numbers.
    fn new(alloc: Global, circuit: &Circuit) -> Result<Layout, AllocError>
        requires { IsOrdered circuit.now }
        ensures { IfOk result (λ layout. (last : List ℕ) → IsLaidOut circuit.now last circuit.now.first layout) }
    {
        // What the limit ensures bounds the sum.
        circuit.limit();
        let first = circuit.first();
        let places = own_places(alloc, first as usize + circuit.count())?;
        let holders = own_holders(alloc, first)?;
        Ok(Layout {
            steps: Vec::new(alloc),
            places,
            holders,
            free: Vec::new(alloc),
        })
    }

    // Puts the gate at a place of the circuit, unless nothing reads it.
    fn add(&mut self, circuit: &Circuit, last: &[u32], place: usize) -> Result<(), AllocError>
        requires ordered { IsOrdered circuit.now }
        requires place { place < length circuit.now.gates }
        requires few { circuit.now.first + place < 2 ^ 31 }
        requires len { length last.now ≡ end_of circuit.now }
        requires uses { AreReadFrom 0 circuit.now last.now }
        requires laid { IsLaidOut circuit.now last.now (circuit.now.first + place) self.old }
        ensures { OnOk result (IsLaidOut circuit.now last.now (circuit.now.first + place + 1) self.new) }
    {
        let x = circuit.first() + place as u32;
        if last[x as usize] == 0 {
            return Ok(());
        }
        let choice = choice_of(circuit.gate(place));
        let chosen = choice_in(self.places.as_slice(), choice);
        release_operands(&mut self.free, self.places.as_slice(), last, choice, x)?;
        let word = take_word(&mut self.free, &mut self.holders, last, x)?;
        let (step, negative) = step_of(chosen, word);
        self.steps.push(step)?;
        self.places[x as usize] = Lit {
            variable: word,
            negative,
        };
        Ok(())
    }
}

/// Where the words of a circuit's variables are put, and the steps that write them, one for each gate that is read.
pub(crate) fn lay_out(alloc: Global, circuit: &Circuit, last: &[u32]) -> Result<Layout, AllocError>
    requires ordered { IsOrdered circuit.now }
    requires len { length last.now ≡ end_of circuit.now }
    requires uses { AreReadFrom 0 circuit.now last.now }
    ensures { IfOk result (IsLaidOut circuit.now last.now (end_of circuit.now)) }
{
    let mut layout = Layout::new(alloc, circuit)?;
    // What the limit ensures bounds the places.
    circuit.limit();
    for place in 0..circuit.count() {
        layout.add(circuit, last, place)?;
    }
    Ok(layout)
}
