ghost use Rattle.std.specs.Prelude.{◌≡◌, IfOk};
ghost use Rattle.node_circuits.specs.NodeWords.{words_view};
ghost use Rattle.query_formulas.specs.PairWords.{initial_word, initial_words};

use clause_core::Lit;
use query_formulas::CellShape;
use std::alloc::{AllocError, Global};
use word_circuits::constant;

// The word of a cell's first value.
fn initial_word(alloc: Global, cell: CellShape) -> Result<Vec<Lit>, AllocError>
    ensures { IfOk result (λ w. w.items ≡ initial_word cell) }
{
    constant(alloc, cell.kind.width() as usize, cell.initial)
}

// The words of the first values of cells.
pub(crate) fn initial_words(alloc: Global, cells: &[CellShape]) -> Result<Vec<Vec<Lit>>, AllocError>
    ensures { IfOk result (λ w. words_view w.items ≡ initial_words cells.now) }
{
    let mut words = Vec::new(alloc);
    for cell in cells {
        words.push(initial_word(alloc, *cell)?)?;
    }
    Ok(words)
}
