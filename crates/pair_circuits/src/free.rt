ghost use Rattle.std.specs.Prelude.{◌≡◌, ℕ, ◌+◌, ◌<◌, ◌≤◌, ◌^◌, length, IfOk};
ghost use Rattle.node_circuits.specs.NodeWords.{words_view};
ghost use Rattle.query_formulas.specs.CellShapes.{bits_of};
ghost use Rattle.query_formulas.specs.PairWords.{free_word, free_words};

use clause_core::Lit;
use query_formulas::CellShape;
use std::alloc::{AllocError, Global};

// A word of so many variables from one on.
fn free_word(alloc: Global, first: u32, width: u32) -> Result<Vec<Lit>, AllocError>
    requires { first + width < 2 ^ 32 }
    ensures { IfOk result (λ w. w.items ≡ free_word first width) }
{
    let mut word = Vec::new(alloc);
    let mut next = first;
    for _bit in 0..width {
        word.push(Lit {
            variable: next,
            negative: false,
        })?;
        next += 1;
    }
    Ok(word)
}

// A word for each cell, the first from a variable on.
pub(crate) fn free_words(
    alloc: Global,
    first: u32,
    cells: &[CellShape],
) -> Result<Vec<Vec<Lit>>, AllocError>
    requires { first + bits_of cells.now < 2 ^ 32 }
    ensures { IfOk result (λ w. words_view w.items ≡ free_words first cells.now) }
{
    let mut words = Vec::new(alloc);
    let mut next = first;
    for cell in cells {
        let width = cell.kind.width();
        words.push(free_word(alloc, next, width)?)?;
        next += width;
    }
    Ok(words)
}

// How many bits the words of cells have together.
pub(crate) fn count_bits(cells: &[CellShape]) -> u32
    requires { bits_of cells.now < 2 ^ 32 }
    ensures { result ≡ bits_of cells.now }
{
    let mut bits = 0;
    for cell in cells {
        bits += cell.kind.width();
    }
    bits
}
