ghost use Rattle.std.specs.Prelude.{◌≡◌, ℕ, ◌+◌, ◌++◌, length, reverse, replicate, IfOk};
ghost use Rattle.word_circuits.specs.Words.{zeros, low_bit, constant_of, not_word, top_of};

use clause_core::Lit;
use gates::{FALSE, TRUE};
use std::alloc::{AllocError, Global};

/// The word of that many bits that is zero.
pub fn zeros(alloc: Global, width: usize) -> Result<Vec<Lit>, AllocError>
    ensures word { IfOk result (λ w. w.items ≡ zeros width) }
    ensures len { IfOk result (λ w. length w.items ≡ width) }
{
    vec![in alloc; FALSE; width]
}

/// A word of that many equal bits.
pub(crate) fn copies(alloc: Global, bit: Lit, width: usize) -> Result<Vec<Lit>, AllocError>
    ensures word { IfOk result (λ w. w.items ≡ replicate width bit) }
    ensures len { IfOk result (λ w. length w.items ≡ width) }
{
    vec![in alloc; bit; width]
}

fn low_bit(value: i128) -> Lit
    ensures { result ≡ low_bit value }
{
    if value.rem_euclid(2) == 1 {
        TRUE
    } else {
        FALSE
    }
}

/// The bits of a whole number in two's complement, cut to a width.
pub fn constant(alloc: Global, width: usize, value: i128) -> Result<Vec<Lit>, AllocError>
    ensures word { IfOk result (λ w. w.items ≡ constant_of width value) }
    ensures len { IfOk result (λ w. length w.items ≡ width) }
{
    let mut word = Vec::new(alloc);
    let mut rest = value;
    for _i in 0..width {
        word.push(low_bit(rest))?;
        rest = rest.div_euclid(2);
    }
    Ok(word)
}

/// NOT: each bit negated.
pub fn not(alloc: Global, word: &[Lit]) -> Result<Vec<Lit>, AllocError>
    ensures word { IfOk result (λ w. w.items ≡ not_word word.now) }
    ensures len { IfOk result (λ w. length w.items ≡ length word.now) }
{
    word.iter().map(|lit| lit.negated()).collect(alloc)
}

/// The bit of greatest worth, FALSE where there is none.
pub fn top(word: &[Lit]) -> Lit
    ensures { result ≡ top_of word.now }
{
    match word.split_last() {
        None => FALSE,
        Some((top, _)) => *top,
    }
}

pub(crate) fn reversed(alloc: Global, word: &[Lit]) -> Result<Vec<Lit>, AllocError>
    ensures { IfOk result (λ w. w.items ≡ reverse word.now) }
{
    word.iter().rev().copied().collect(alloc)
}

// The two words, the first below the second.
pub(crate) fn joined(alloc: Global, low: &[Lit], high: &[Lit]) -> Result<Vec<Lit>, AllocError>
    ensures word { IfOk result (λ w. w.items ≡ low.now ++ high.now) }
    ensures len { IfOk result (λ w. length w.items ≡ length low.now + length high.now) }
{
    let mut word = Vec::new(alloc);
    word.extend_from_slice(low)?;
    word.extend_from_slice(high)?;
    Ok(word)
}
