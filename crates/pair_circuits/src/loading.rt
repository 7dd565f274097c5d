ghost use Rattle.std.specs.Prelude.{◌≡◌, slice_set, IfOk, OnOk};
ghost use Rattle.node_circuits.specs.NodeWords.{words_view};
ghost use Rattle.pair_circuits.specs.Views.{pair_view};
ghost use Rattle.query_formulas.specs.PairWords.{loaded_word, loaded_words};

use crate::pair::{WordPair, copy_word};
use clause_core::Lit;
use scan_model::InputLine;
use std::alloc::{AllocError, Global};

// Puts a copy of a word at a place, where there is one.
fn put(
    alloc: Global,
    words: &mut Vec<Vec<Lit>>,
    place: usize,
    word: &[Lit],
) -> Result<(), AllocError>
    ensures { OnOk result (words_view words.new.items ≡ slice_set (words_view words.old.items) place word.now) }
{
    let copy = copy_word(alloc, word)?;
    if place < words.len() {
        words[place] = copy;
    }
    Ok(())
}

// Puts a word into the cells that its line names.
fn load_word(
    alloc: Global,
    line: InputLine,
    word: &[Lit],
    pair: &mut WordPair,
) -> Result<(), AllocError>
    ensures { OnOk result (pair_view pair.exit.now ≡ loaded_word line word.now (pair_view pair.entry.now)) }
{
    match line {
        InputLine::Both { old, new, .. } => {
            put(alloc, &mut pair.old, old, word)?;
            put(alloc, &mut pair.new, new, word)
        }
        InputLine::Old { place, .. } => put(alloc, &mut pair.old, place, word),
        InputLine::New { place, .. } => put(alloc, &mut pair.new, place, word),
    }
}

/// The pair with each word of a row put into the cells that its line names.
pub(crate) fn load(
    alloc: Global,
    lines: &[InputLine],
    words: &[Vec<Lit>],
    pair: WordPair,
) -> Result<WordPair, AllocError>
    ensures { IfOk result (λ p. pair_view p ≡ loaded_words lines.now (words_view words.now) (pair_view pair)) }
{
    let mut pair = pair;
    for (i, line) in lines.iter().enumerate() {
        if i >= words.len() {
            return Ok(pair);
        }
        load_word(alloc, *line, words[i].as_slice(), &mut pair)?;
    }
    Ok(pair)
}
