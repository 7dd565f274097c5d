ghost use Rattle.std.specs.Prelude.{◌≡◌, ◌++◌, IfOk, OnOk};
ghost use Rattle.node_circuits.specs.NodeWords.{words_view};
ghost use Rattle.pair_circuits.specs.Views.{pair_view};
ghost use Rattle.query_formulas.specs.PairWords.{clause_words};

use clause_core::Lit;
use gates::FALSE;
use std::alloc::{AllocError, Global};

/// The words of both programs: a word for each cell, the bit of least worth first.
#[derive(Drop)]
pub struct WordPair {
    pub old: Vec<Vec<Lit>>,
    pub new: Vec<Vec<Lit>>,
}

// A copy of a word.
pub(crate) fn copy_word(alloc: Global, word: &[Lit]) -> Result<Vec<Lit>, AllocError>
    ensures { IfOk result (λ w. w.items ≡ word.now) }
{
    let mut copy = Vec::new(alloc);
    copy.extend_from_slice(word)?;
    Ok(copy)
}

// Adds copies of words behind the others.
fn add_copies(alloc: Global, words: &mut Vec<Vec<Lit>>, more: &[Vec<Lit>]) -> Result<(), AllocError>
    ensures { OnOk result (words_view words.new.items ≡ words_view words.old.items ++ words_view more.now) }
{
    for word in more {
        words.push(copy_word(alloc, word.as_slice())?)?;
    }
    Ok(())
}

// Copies of words.
pub(crate) fn copy_words(alloc: Global, words: &[Vec<Lit>]) -> Result<Vec<Vec<Lit>>, AllocError>
    ensures { IfOk result (λ w. words_view w.items ≡ words_view words.now) }
{
    let mut copies = Vec::new(alloc);
    add_copies(alloc, &mut copies, words)?;
    Ok(copies)
}

// A copy of a pair.
pub(crate) fn copy_pair(alloc: Global, pair: &WordPair) -> Result<WordPair, AllocError>
    ensures { IfOk result (λ p. pair_view p ≡ pair_view pair.now) }
{
    let old = copy_words(alloc, pair.old.as_slice())?;
    let new = copy_words(alloc, pair.new.as_slice())?;
    Ok(WordPair { old, new })
}

// The words that a clause on a pair starts with.
pub(crate) fn clause_words(alloc: Global, pair: &WordPair) -> Result<Vec<Vec<Lit>>, AllocError>
    ensures { IfOk result (λ w. words_view w.items ≡ clause_words (pair_view pair.now)) }
{
    let mut words = copy_words(alloc, pair.old.as_slice())?;
    add_copies(alloc, &mut words, pair.new.as_slice())?;
    words.push(copy_word(alloc, &[FALSE])?)?;
    Ok(words)
}
