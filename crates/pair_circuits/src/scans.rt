ghost use Rattle.std.specs.Prelude.{◌≡◌, map, IfOk, IfErr, OnOk};
ghost use Rattle.gates.specs.declared.circuit.GateFault.{GateFault};
ghost use Rattle.gates.specs.Netlists.{IsOverfull, IsWithinLimit, IsExtensionOf};
ghost use Rattle.node_core.specs.Scans.{scan_view};
ghost use Rattle.node_circuits.specs.NodeWords.{words_view, word_in};
ghost use Rattle.pair_circuits.specs.Views.{pair_view};
ghost use Rattle.query_formulas.specs.PairScans.{scanned_words, scanned_pair};

use crate::pair::{WordPair, copy_word};
use clause_core::Lit;
use gates::{Circuit, GateFault};
use node_circuits::encode;
use node_core::Scan;
use std::alloc::{AllocError, Global};

// A copy of the word with a number, the empty one where there is none.
fn word_at(alloc: Global, words: &[Vec<Lit>], number: usize) -> Result<Vec<Lit>, AllocError>
    ensures { IfOk result (λ w. w.items ≡ word_in (words_view words.now) number) }
{
    match words.get(number) {
        None => Ok(Vec::new(alloc)),
        Some(word) => copy_word(alloc, word.as_slice()),
    }
}

// Copies of the words with these numbers.
fn words_at(
    alloc: Global,
    words: &[Vec<Lit>],
    numbers: &[usize],
) -> Result<Vec<Vec<Lit>>, AllocError>
    ensures { IfOk result (λ w. words_view w.items ≡ map (word_in (words_view words.now)) numbers.now) }
{
    let mut found = Vec::new(alloc);
    for number in numbers {
        found.push(word_at(alloc, words, *number)?)?;
    }
    Ok(found)
}

// The words that the cells hold behind a scan.
fn scanned_words(
    alloc: Global,
    circuit: &mut Circuit,
    scan: &Scan,
    words: Vec<Vec<Lit>>,
) -> Result<Vec<Vec<Lit>>, GateFault>
    ensures words { IfOk result (λ w. words_view w.items ≡ (scanned_words (scan_view scan.now) (words_view words.items) circuit.old).words) }
    ensures net { OnOk result (circuit.new ≡ (scanned_words (scan_view scan.now) (words_view words.items) circuit.old).net) }
    ensures fits { OnOk result (IsWithinLimit circuit.new) }
    ensures too_many { IfErr result (λ fault. fault ≡ GateFault.TooMany → IsOverfull (scanned_words (scan_view scan.now) (words_view words.items) circuit.old).net) }
    ensures extends { IsExtensionOf circuit.old circuit.new }
{
    let all = encode(alloc, circuit, scan.nodes.as_slice(), words)?;
    let Ok(behind) = words_at(alloc, all.as_slice(), scan.last.as_slice()) else {
        return Err(GateFault::Memory);
    };
    Ok(behind)
}

/// The pair behind a scan of OLD and then one of NEW.
pub(crate) fn scanned_pair(
    alloc: Global,
    circuit: &mut Circuit,
    old: &Scan,
    new: &Scan,
    pair: WordPair,
) -> Result<WordPair, GateFault>
    ensures pair { IfOk result (λ p. pair_view p ≡ (scanned_pair (scan_view old.now) (scan_view new.now) (pair_view pair) circuit.old).pair) }
    ensures net { OnOk result (circuit.new ≡ (scanned_pair (scan_view old.now) (scan_view new.now) (pair_view pair) circuit.old).net) }
    ensures fits { OnOk result (IsWithinLimit circuit.new) }
    ensures too_many { IfErr result (λ fault. fault ≡ GateFault.TooMany → IsOverfull (scanned_pair (scan_view old.now) (scan_view new.now) (pair_view pair) circuit.old).net) }
    ensures extends { IsExtensionOf circuit.old circuit.new }
{
    let WordPair {
        old: of_old,
        new: of_new,
    } = pair;
    let of_old = scanned_words(alloc, circuit, old, of_old)?;
    let of_new = scanned_words(alloc, circuit, new, of_new)?;
    Ok(WordPair {
        old: of_old,
        new: of_new,
    })
}
