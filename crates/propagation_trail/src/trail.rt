// The trail: the literals that are true, in the order in which they became so.

ghost use Rattle.std.specs.Prelude.{◌≡◌, ℕ, ◌<◌, ◌≤◌, ◌+◌, ◌*◌, ◌^◌, ◌-◌, ◌%◌, nat_eq, List, length, take, slice_index_or, slice_get, Contains, IsTrue, IfOk, IfSome, OnErr, OnOk};
ghost use Rattle.clause_core.specs.declared.truth.Truth.{Truth};
ghost use Rattle.clause_core.specs.Values.{opposite, signed_truth};
ghost use Rattle.propagation_trail.specs.Codes.{negated, truth, put};
ghost use Rattle.propagation_trail.specs.Trails.{TrailState, empty_trail, assigned, with_level, with_head, IsBack, IsConsistent, IsRising, IsTabled};

use crate::code::{ClauseRef, negated};
use crate::table::{low, read, write};
use clause_core::Truth;
use std::alloc::{AllocError, Global};
use std::marker::Model;

/// Where a literal became true: how many decisions stood, which clause was unit, and how many literals
/// were true before. A decision has no clause.
#[derive(Clone, Copy)]
pub struct Cause {
    pub level: u32,
    pub reason: ClauseRef,
    pub place: u32,
}

const NO_CAUSE: Cause = Cause {
    level: 0,
    reason: ClauseRef::NONE,
    place: 0,
};

/// The true literals in the order in which they became so, and why each did.
#[derive(Drop)]
pub struct Trail {
    /// The value of each literal, by its rank.
    truths: Vec<Truth>,
    /// The value of each variable.
    values: Vec<Truth>,
    causes: Vec<Cause>,
    /// The ranks of the true literals.
    literals: Vec<u32>,
    /// How many of them were propagated.
    head: usize,
    /// How many literals were true when each decision was made.
    starts: Vec<usize>,
}

impl Model for Trail {
    ghost use Rattle.propagation_trail.specs.Trails.{TrailState, IsTrail};

    ghost Value = { TrailState };

    ghost view = { λ t. record { literals = t.literals.items; head = t.head; starts = t.starts.items; values = t.values.items } };

    ghost invariant = { λ t. IsTrail t.truths.items t.values.items t.literals.items t.head t.starts.items };
}

/// The value with the other sign.
#[inline(always)]
fn opposite(truth: Truth) -> Truth
    ensures { result ≡ opposite truth }
{
    match truth {
        Truth::Open => Truth::Open,
        Truth::True => Truth::False,
        Truth::False => Truth::True,
    }
}

/// The value of a literal's variable, from that of the literal.
#[inline(always)]
fn signed(code: u32, truth: Truth) -> Truth
    ensures { result ≡ signed_truth (nat_eq (code % 2) 1) truth }
{
    if code % 2 == 1 {
        opposite(truth)
    } else {
        truth
    }
}

/// Gives a literal a value in both tables.
#[inline(always)]
fn set_value(truths: &mut [Truth], values: &mut [Truth], code: u32, truth: Truth)
    requires code { code < 2 * length values.old }
    requires tabled { IsTabled truths.old values.old }
    ensures tabled { IsTabled truths.new values.new }
    ensures values { values.new ≡ put values.old code truth }
{
    truths[code as usize] = truth;
    truths[negated(code) as usize] = opposite(truth);
    values[(code / 2) as usize] = signed(code, truth);
}

/// Takes the last literals back, until so many are left.
fn pop_to(truths: &mut [Truth], values: &mut [Truth], literals: &mut Vec<u32>, count: usize)
    requires tabled { IsTabled truths.old values.old }
    requires consistent { IsConsistent literals.old.items values.old }
    ensures tabled { IsTabled truths.new values.new }
    ensures consistent { IsConsistent literals.new.items values.new }
    ensures literals { literals.new.items ≡ take count literals.old.items }
{
    while literals.len() > count {
        match literals.pop() {
            None => {
                return;
            }
            Some(code) => set_value(truths, values, code, Truth::Open),
        }
    }
}

/// Whether the literal stands at the place, and no level begins behind it.
fn stands_after(literals: &[u32], starts: &[usize], code: u32, place: usize) -> bool
    ensures within { IsTrue result → place < length literals.now }
    ensures code { IsTrue result → slice_index_or literals.now place 0 ≡ code }
    ensures after { IsTrue result → 0 < length starts.now → slice_index_or starts.now (length starts.now - 1) 0 ≤ place }
{
    if place >= literals.len() {
        return false;
    }
    if literals[place] != code {
        return false;
    }
    if starts.is_empty() {
        return true;
    }
    starts[starts.len() - 1] <= place
}

impl Trail {
    /// The trail of no literal, over so many variables.
    pub fn new(alloc: Global, variables: u32) -> Result<Trail, AllocError>
        requires { variables < 2 ^ 31 }
        ensures { IfOk result (λ t. t ≡ empty_trail (variables + 1)) }
    {
        let places = variables as usize + 1;
        let truths = vec![in alloc; Truth::Open; places * 2]?;
        let values = vec![in alloc; Truth::Open; places]?;
        let causes = vec![in alloc; NO_CAUSE; places]?;
        let literals = Vec::with_capacity(alloc, places)?;
        Ok(Trail {
            truths,
            values,
            causes,
            literals,
            head: 0,
            starts: Vec::new(alloc),
        })
    }

    /// The values of the variables.
    #[inline(always)]
    pub fn values(&self) -> &[Truth]
        ensures { result.now ≡ self.now.values }
    {
        self.values.as_slice()
    }

    /// The value of a literal.
    #[inline(always)]
    pub fn value(&self, code: u32) -> Truth
        ensures { result ≡ truth self.now.values code }
    {
        read(self.truths.as_slice(), code as usize, Truth::Open)
    }

    /// Whether a literal is true.
    #[inline(always)]
    pub fn is_true(&self, code: u32) -> bool
        ensures on { IsTrue result → Contains self.now.literals code }
        ensures holds { IsTrue result → truth self.now.values code ≡ Truth.True }
    {
        match read(self.truths.as_slice(), code as usize, Truth::Open) {
            Truth::True => true,
            _ => false,
        }
    }

    /// Whether a literal is true or open.
    #[inline(always)]
    pub fn is_free(&self, code: u32) -> bool
        ensures { IsTrue result → Contains self.now.literals (negated code) → ⊥ }
    {
        match read(self.truths.as_slice(), code as usize, Truth::Open) {
            Truth::False => false,
            _ => true,
        }
    }

    /// Whether a literal is open.
    #[inline(always)]
    pub fn is_open(&self, code: u32) -> bool
        ensures open { IsTrue result → truth self.now.values code ≡ Truth.Open }
        ensures free { IsTrue result → Contains self.now.literals (negated code) → ⊥ }
    {
        match read(self.truths.as_slice(), code as usize, Truth::Open) {
            Truth::Open => true,
            _ => false,
        }
    }

    /// Why a literal is true.
    #[inline(always)]
    pub fn cause(&self, code: u32) -> Cause {
        read(self.causes.as_slice(), (code / 2) as usize, NO_CAUSE)
    }

    /// How many literals are true.
    #[inline(always)]
    pub fn len(&self) -> usize
        ensures { result ≡ length self.now.literals }
    {
        self.literals.len()
    }

    /// The true literal at a place; 0 past the end.
    #[inline(always)]
    pub fn literal_at(&self, place: usize) -> u32
        ensures { result ≡ slice_index_or self.now.literals place 0 }
    {
        read(self.literals.as_slice(), place, 0)
    }

    /// How many decisions stand.
    #[inline(always)]
    pub fn level(&self) -> usize
        ensures { result ≡ length self.now.starts }
    {
        self.starts.len()
    }

    /// How many literals stood when the decision above a level was made; all of them where there is none.
    #[inline(always)]
    pub fn start_above(&self, level: usize) -> usize {
        read(self.starts.as_slice(), level, self.literals.len())
    }

    /// Whether all true literals were propagated.
    #[inline(always)]
    pub fn is_propagated(&self) -> bool
        ensures head { IsTrue result → self.now.head ≡ length self.now.literals }
        ensures consistent { IsConsistent self.now.literals self.now.values }
    {
        self.head >= self.literals.len()
    }

    /// The next true literal to be propagated.
    #[inline(always)]
    pub fn next(&self) -> Option<u32>
        ensures next { IfSome result (λ c. slice_get self.now.literals self.now.head ≡ Some c) }
        ensures within { IfSome result (λ c. c < 2 * length self.now.values) }
    {
        if self.head < self.literals.len() {
            Some(self.literals[self.head])
        } else {
            None
        }
    }

    /// The next literal was propagated.
    #[inline(always)]
    pub fn advance(&mut self)
        requires { self.old.head < length self.old.literals }
        ensures { self.new ≡ with_head self.old (self.old.head + 1) }
    {
        self.head += 1;
    }

    /// Makes an open literal true by a clause.
    #[inline(always)]
    pub fn assign(&mut self, code: u32, reason: ClauseRef) -> Result<(), AllocError>
        requires within { code < 2 * length self.old.values }
        requires open { truth self.old.values code ≡ Truth.Open }
        ensures ok { OnOk result (self.new ≡ assigned self.old code) }
        ensures err { OnErr result (self.new ≡ self.old) }
        ensures propagated { self.old.head ≤ length self.old.literals }
        ensures rising { IsRising self.old.starts (length self.old.literals) }
    {
        let cause = Cause {
            level: low(self.starts.len()),
            reason,
            place: low(self.literals.len()),
        };
        match self.literals.push(code) {
            Err(_) => {
                return Err(AllocError);
            }
            Ok(()) => {}
        }
        set_value(
            self.truths.as_mut_slice(),
            self.values.as_mut_slice(),
            code,
            Truth::True,
        );
        write(self.causes.as_mut_slice(), (code / 2) as usize, cause);
        Ok(())
    }

    /// Begins a level, whose decision is to be assigned next.
    pub fn begin_level(&mut self) -> Result<(), AllocError>
        ensures ok { OnOk result (self.new ≡ with_level self.old) }
        ensures err { OnErr result (self.new ≡ self.old) }
    {
        let start = self.literals.len();
        match self.starts.push(start) {
            Ok(()) => Ok(()),
            Err(_) => Err(AllocError),
        }
    }

    /// Takes back the decisions above a level, and what they led to.
    pub fn go_back(&mut self, level: usize)
        requires { level < length self.old.starts }
        ensures back { IsBack self.old level self.new }
        ensures rising { IsRising self.old.starts (length self.old.literals) }
    {
        let start = self.starts[level];
        pop_to(
            self.truths.as_mut_slice(),
            self.values.as_mut_slice(),
            &mut self.literals,
            start,
        );
        self.starts.truncate(level);
        self.head = start;
    }

    /// Whether a literal became true at the last level, or stands where there is no level.
    pub fn is_of_last_level(&self, code: u32) -> bool
        ensures level { IsTrue result → (j : ℕ) → j < length self.now.starts → Contains (take (slice_index_or self.now.starts j 0) self.now.literals) code → ⊥ }
        ensures rising { IsRising self.now.starts (length self.now.literals) }
    {
        let place = self.cause(code).place as usize;
        stands_after(
            self.literals.as_slice(),
            self.starts.as_slice(),
            code,
            place,
        )
    }
}
