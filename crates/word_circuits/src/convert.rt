ghost use Rattle.std.specs.Prelude.{◌≡◌, length, IfOk, IfErr, OnOk};
ghost use Rattle.gates.specs.declared.circuit.GateFault.{GateFault};
ghost use Rattle.gates.specs.Netlists.{IsOverfull, IsWithinLimit, IsExtensionOf};
ghost use Rattle.word_circuits.specs.Conversions.{filler, resized, any_from, any_of};

use crate::words::{copies, joined, top};
use clause_core::Lit;
use gates::{Circuit, FALSE, GateFault};
use std::alloc::{AllocError, Global};

fn filler(signed: bool, word: &[Lit]) -> Lit
    ensures { result ≡ filler signed word.now }
{
    if signed { top(word) } else { FALSE }
}

/// A word cut to a width, or extended: by its sign where the source is signed, else by FALSE.
pub fn resize(
    alloc: Global,
    signed: bool,
    width: usize,
    word: &[Lit],
) -> Result<Vec<Lit>, AllocError>
    ensures word { IfOk result (λ w. w.items ≡ resized signed width word.now) }
    ensures len { IfOk result (λ w. length w.items ≡ width) }
{
    let kept = width.min(word.len());
    let high = copies(alloc, filler(signed, word), width - kept)?;
    joined(alloc, &word[..kept], high.as_slice())
}

/// To BOOL: whether some bit is set.
pub fn any(circuit: &mut Circuit, word: &[Lit]) -> Result<Lit, GateFault>
    ensures lit { IfOk result (λ l. l ≡ (any_of word.now circuit.old).lit) }
    ensures net { OnOk result (circuit.new ≡ (any_of word.now circuit.old).net) }
    ensures fits { OnOk result (IsWithinLimit circuit.new) }
    ensures too_many { IfErr result (λ fault. fault ≡ GateFault.TooMany → IsOverfull (any_of word.now circuit.old).net) }
    ensures extends { IsExtensionOf circuit.old circuit.new }
{
    let mut some = FALSE;
    for bit in word {
        some = circuit.or(some, *bit)?;
    }
    circuit.count();
    Ok(some)
}
