ghost use Rattle.std.specs.Prelude.{◌≡◌, ◌++◌, IfOk, IfErr, OnOk};
ghost use Rattle.gates.specs.declared.circuit.GateFault.{GateFault};
ghost use Rattle.gates.specs.Netlists.{IsOverfull, IsWithinLimit, IsExtensionOf};
ghost use Rattle.node_circuits.specs.NodeWords.{words_view};
ghost use Rattle.pair_circuits.specs.Views.{pair_view, parts_view};
ghost use Rattle.query_formulas.specs.Products.{outside_all, premises_from};

use crate::clauses::pair_literals;
use crate::outside::outside_cells;
use crate::pair::WordPair;
use crate::parts::PairParts;
use clause_core::Lit;
use gates::{Circuit, GateFault};
use std::alloc::{AllocError, Global};

// Lists of literals, one behind the other.
fn joined(first: Vec<Lit>, second: &[Lit], third: &[Lit]) -> Result<Vec<Lit>, AllocError>
    ensures { IfOk result (λ l. l.items ≡ (first.items ++ second.now) ++ third.now) }
{
    let mut all = first;
    all.extend_from_slice(second)?;
    all.extend_from_slice(third)?;
    Ok(all)
}

// Which cells and numbers lie outside of their ranges.
fn outside_all(
    alloc: Global,
    circuit: &mut Circuit,
    parts: &PairParts,
    pair: &WordPair,
    inputs: &[Vec<Lit>],
) -> Result<Vec<Lit>, GateFault>
    ensures lits { IfOk result (λ l. l.items ≡ (outside_all (parts_view parts.now) (pair_view pair.now) (words_view inputs.now) circuit.old).lits) }
    ensures net { OnOk result (circuit.new ≡ (outside_all (parts_view parts.now) (pair_view pair.now) (words_view inputs.now) circuit.old).net) }
    ensures fits { OnOk result (IsWithinLimit circuit.new) }
    ensures too_many { IfErr result (λ fault. fault ≡ GateFault.TooMany → IsOverfull (outside_all (parts_view parts.now) (pair_view pair.now) (words_view inputs.now) circuit.old).net) }
    ensures extends { IsExtensionOf circuit.old circuit.new }
{
    let of_old = outside_cells(alloc, circuit, parts.old.as_slice(), pair.old.as_slice())?;
    let of_new = outside_cells(alloc, circuit, parts.new.as_slice(), pair.new.as_slice())?;
    let of_lines = outside_cells(alloc, circuit, parts.lines.as_slice(), inputs)?;
    let Ok(all) = joined(of_old, of_new.as_slice(), of_lines.as_slice()) else {
        return Err(GateFault::Memory);
    };
    Ok(all)
}

/// Literals before a row: what lies outside of its range, and the candidates.
#[derive(Drop)]
pub(crate) struct Premises {
    pub outside: Vec<Lit>,
    pub before: Vec<Lit>,
}

/// The literals before a row.
pub(crate) fn literals_before(
    alloc: Global,
    circuit: &mut Circuit,
    parts: &PairParts,
    pair: &WordPair,
    inputs: &[Vec<Lit>],
) -> Result<Premises, GateFault>
    ensures outside { IfOk result (λ p. p.outside.items ≡ (premises_from (parts_view parts.now) (pair_view pair.now) (words_view inputs.now) circuit.old).outside) }
    ensures before { IfOk result (λ p. p.before.items ≡ (premises_from (parts_view parts.now) (pair_view pair.now) (words_view inputs.now) circuit.old).before) }
    ensures net { OnOk result (circuit.new ≡ (premises_from (parts_view parts.now) (pair_view pair.now) (words_view inputs.now) circuit.old).net) }
    ensures fits { OnOk result (IsWithinLimit circuit.new) }
    ensures too_many { IfErr result (λ fault. fault ≡ GateFault.TooMany → IsOverfull (premises_from (parts_view parts.now) (pair_view pair.now) (words_view inputs.now) circuit.old).net) }
    ensures extends { IsExtensionOf circuit.old circuit.new }
{
    let outside = outside_all(alloc, circuit, parts, pair, inputs)?;
    let before = pair_literals(alloc, circuit, parts.candidates.as_slice(), pair)?;
    Ok(Premises { outside, before })
}
