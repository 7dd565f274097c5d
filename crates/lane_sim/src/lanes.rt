ghost use Rattle.std.specs.Prelude.{◌≡◌, ℕ, ◌<◌, ◌&&◌, length, if◌then◌else◌};
ghost use Rattle.clause_core.specs.Satisfaction.{literal_true, signed};
ghost use Rattle.gates.specs.Meaning.{exactly_one};
ghost use Rattle.lane_sim.specs.Lanes.{lane, assignment_of};

use clause_core::Lit;
use std::simd::u64x4;

#[inline(always)]
fn and_word(a: u64x4, b: u64x4) -> u64x4
    ensures { (j : ℕ) → j < 256 → lane result j ≡ (lane a j && lane b j) }
{
    a & b
}

#[inline(always)]
fn xor_word(a: u64x4, b: u64x4) -> u64x4
    ensures { (j : ℕ) → j < 256 → lane result j ≡ exactly_one (lane a j) (lane b j) }
{
    a ^ b
}

/// `a` in the lanes where `c` is set, `b` in the others.
#[inline(always)]
pub fn choose_word(c: u64x4, a: u64x4, b: u64x4) -> u64x4
    ensures { (j : ℕ) → j < 256 → lane result j ≡ (if lane c j then lane a j else lane b j) }
{
    xor_word(b, and_word(c, xor_word(a, b)))
}

/// The word, or its complement.
#[inline(always)]
pub(crate) fn signed_word(word: u64x4, negative: bool) -> u64x4
    ensures { (j : ℕ) → j < 256 → lane result j ≡ signed negative (lane word j) }
{
    let mask = if negative { u64::MAX } else { 0 };
    word ^ u64x4::splat(mask)
}

/// The word of a literal, from the words of the variables.
#[inline(always)]
pub fn literal_word(words: &[u64x4], lit: Lit) -> u64x4
    requires { lit.variable < length words.now }
    ensures { (j : ℕ) → j < 256 → lane result j ≡ literal_true (assignment_of j words.now) lit }
{
    signed_word(words[lit.variable as usize], lit.negative)
}

/// Whether a lane of a word is set.
pub fn is_set(word: u64x4, j: usize) -> bool
    requires { j < 256 }
    ensures { result ≡ lane word j }
{
    word[j / 64] >> (j % 64) & 1 == 1
}
