ghost use Rattle.std.specs.Prelude.{◌≡◌, ℕ, ◌+◌, ◌-◌, ◌<◌, ◌^◌, IfOk, IfErr, OnOk};
ghost use Rattle.gates.specs.declared.circuit.GateFault.{GateFault};
ghost use Rattle.gates.specs.Netlists.{IsOverfull, IsWithinLimit, IsExtensionOf};
ghost use Rattle.node_circuits.specs.NodeWords.{words_view};
ghost use Rattle.pair_circuits.specs.Views.{pair_view, parts_view, product_view};
ghost use Rattle.query_formulas.specs.Products.{product_from, product_bits, product_of};

use crate::consequences::literals_behind;
use crate::free::{count_bits, free_words};
use crate::pair::{WordPair, copy_pair};
use crate::parts::PairParts;
use crate::premises::literals_before;
use crate::rows::loaded_row;
use clause_core::Lit;
use gates::{Circuit, GateFault};
use std::alloc::{AllocError, Global};

/// Literals of one scan from any pair: cells and numbers outside of their ranges, the candidates before, the ENV clauses on the
/// loaded pair, and the candidates and the RELATE clauses behind the scan.
#[derive(Drop)]
pub struct ProductLits {
    pub outside: Vec<Lit>,
    pub before: Vec<Lit>,
    pub environment: Vec<Lit>,
    pub after: Vec<Lit>,
    pub relates: Vec<Lit>,
}

/// The circuit of one scan from any pair: its free words, which are the cells of both programs and the numbers of the INPUT lines,
/// its literals, and the words of both programs' cells behind the scan. No clause speaks of the last.
#[derive(Drop)]
pub struct Product {
    pub pair: WordPair,
    pub inputs: Vec<Vec<Lit>>,
    pub lits: ProductLits,
    pub behind: WordPair,
    pub circuit: Circuit,
}

/// The literals of one scan, and the pair behind it.
#[derive(Drop)]
struct ScannedLits {
    lits: ProductLits,
    behind: WordPair,
}

// The literals of one scan from a pair, in a circuit, and the pair behind it.
fn product_from(
    alloc: Global,
    circuit: &mut Circuit,
    parts: &PairParts,
    pair: &WordPair,
    inputs: &[Vec<Lit>],
) -> Result<ScannedLits, GateFault>
    ensures outside { IfOk result (λ r. r.lits.outside.items ≡ (product_from (parts_view parts.now) (pair_view pair.now) (words_view inputs.now) circuit.old).outside) }
    ensures before { IfOk result (λ r. r.lits.before.items ≡ (product_from (parts_view parts.now) (pair_view pair.now) (words_view inputs.now) circuit.old).before) }
    ensures environment { IfOk result (λ r. r.lits.environment.items ≡ (product_from (parts_view parts.now) (pair_view pair.now) (words_view inputs.now) circuit.old).environment) }
    ensures after { IfOk result (λ r. r.lits.after.items ≡ (product_from (parts_view parts.now) (pair_view pair.now) (words_view inputs.now) circuit.old).after) }
    ensures relates { IfOk result (λ r. r.lits.relates.items ≡ (product_from (parts_view parts.now) (pair_view pair.now) (words_view inputs.now) circuit.old).relates) }
    ensures net { OnOk result (circuit.new ≡ (product_from (parts_view parts.now) (pair_view pair.now) (words_view inputs.now) circuit.old).net) }
    ensures fits { OnOk result (IsWithinLimit circuit.new) }
    ensures too_many { IfErr result (λ fault. fault ≡ GateFault.TooMany → IsOverfull (product_from (parts_view parts.now) (pair_view pair.now) (words_view inputs.now) circuit.old).net) }
    ensures extends { IsExtensionOf circuit.old circuit.new }
{
    let premises = literals_before(alloc, circuit, parts, pair, inputs)?;
    let Ok(copy) = copy_pair(alloc, pair) else {
        return Err(GateFault::Memory);
    };
    let row = loaded_row(alloc, circuit, parts, inputs, copy)?;
    let behind = literals_behind(alloc, circuit, parts, row.pair)?;
    Ok(ScannedLits {
        lits: ProductLits {
            outside: premises.outside,
            before: premises.before,
            environment: row.environment,
            after: behind.after,
            relates: behind.relates,
        },
        behind: behind.pair,
    })
}

/// The circuit of one scan from any pair, of at most so many gates.
pub fn product_circuit(alloc: Global, parts: &PairParts, limit: u32) -> Result<Product, GateFault>
    requires few { product_bits (parts_view parts.now) + limit < 2 ^ 31 - 1 }
    ensures product { IfOk result (λ p. product_view p ≡ product_of (parts_view parts.now) limit) }
    ensures fits { IfOk result (λ p. IsWithinLimit (product_view p).lits.net) }
    ensures too_many { IfErr result (λ fault. fault ≡ GateFault.TooMany → IsOverfull (product_of (parts_view parts.now) limit).lits.net) }
{
    let of_old = count_bits(parts.old.as_slice());
    let of_new = count_bits(parts.new.as_slice());
    let of_lines = count_bits(parts.lines.as_slice());
    let Ok(old) = free_words(alloc, 2, parts.old.as_slice()) else {
        return Err(GateFault::Memory);
    };
    let Ok(new) = free_words(alloc, 2 + of_old, parts.new.as_slice()) else {
        return Err(GateFault::Memory);
    };
    let Ok(inputs) = free_words(alloc, 2 + of_old + of_new, parts.lines.as_slice()) else {
        return Err(GateFault::Memory);
    };
    let pair = WordPair { old, new };
    let mut circuit = Circuit::new(alloc, of_old + of_new + of_lines, limit);
    let scanned = product_from(alloc, &mut circuit, parts, &pair, inputs.as_slice())?;
    Ok(Product {
        pair,
        inputs,
        lits: scanned.lits,
        behind: scanned.behind,
        circuit,
    })
}
