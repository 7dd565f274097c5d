ghost use Rattle.std.specs.Prelude.{◌≡◌, ◌∷◌, [], length, IfOk};
ghost use Rattle.plc_types.specs.Types.{width_of};
ghost use Rattle.node_circuits.specs.NodeWords.{words_view, operand_of};

use clause_core::Lit;
use plc_types::Elementary;
use std::alloc::{AllocError, Global};
use word_circuits::resize;

// The word with a number, as an operand of a type.
pub(crate) fn operand(
    alloc: Global,
    words: &[Vec<Lit>],
    kind: Elementary,
    number: usize,
) -> Result<Vec<Lit>, AllocError>
    ensures word { IfOk result (λ w. w.items ≡ operand_of (words_view words.now) kind number) }
    ensures len { IfOk result (λ w. length w.items ≡ width_of kind) }
{
    let width = kind.width() as usize;
    match words.get(number) {
        Some(word) => resize(alloc, false, width, word.as_slice()),
        None => resize(alloc, false, width, &[]),
    }
}

// A word of one bit.
pub(crate) fn one_bit(alloc: Global, bit: Lit) -> Result<Vec<Lit>, AllocError>
    ensures { IfOk result (λ w. w.items ≡ bit ∷ []) }
{
    let mut word = Vec::new(alloc);
    word.push(bit)?;
    Ok(word)
}
