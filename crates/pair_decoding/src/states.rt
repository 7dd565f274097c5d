ghost use Rattle.std.specs.Prelude.{◌≡◌, IfOk};
ghost use Rattle.clause_core.specs.Satisfaction.{assigned};
ghost use Rattle.node_circuits.specs.NodeWords.{words_view};
ghost use Rattle.pair_decoding.specs.Widths.{AreWide};
ghost use Rattle.query_formulas.specs.Decoded.{decoded_state, first_state};

use crate::numbers::value;
use clause_core::{Assignment, Lit};
use plc_types::Value;
use query_formulas::CellShape;
use std::alloc::{AllocError, Global};

/// The numbers that the words of cells spell.
pub(crate) fn state(
    alloc: Global,
    cells: &[CellShape],
    words: &[Vec<Lit>],
    found: &Assignment,
) -> Result<Vec<Value>, AllocError>
    requires { AreWide cells.now (words_view words.now) }
    ensures { IfOk result (λ s. s.items ≡ decoded_state cells.now (words_view words.now) (assigned found.now)) }
{
    let mut numbers = Vec::new(alloc);
    let count = cells.len().min(words.len());
    for i in 0..count {
        numbers.push(value(cells[i].kind, words[i].as_slice(), found))?;
    }
    Ok(numbers)
}

/// The numbers that cells begin with.
pub(crate) fn first_state(alloc: Global, cells: &[CellShape]) -> Result<Vec<Value>, AllocError>
    ensures { IfOk result (λ s. s.items ≡ first_state cells.now) }
{
    let mut numbers = Vec::new(alloc);
    for cell in cells {
        numbers.push(cell.initial)?;
    }
    Ok(numbers)
}
