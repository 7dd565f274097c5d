ghost use Rattle.std.specs.Prelude.{◌≡◌, IfOk, IfErr, OnOk};
ghost use Rattle.gates.specs.declared.circuit.GateFault.{GateFault};
ghost use Rattle.gates.specs.Netlists.{IsOverfull, IsWithinLimit, IsExtensionOf};
ghost use Rattle.node_circuits.specs.NodeWords.{words_view};
ghost use Rattle.pair_circuits.specs.Views.{pair_view, parts_view};
ghost use Rattle.query_formulas.specs.Products.{loaded_row};

use crate::clauses::pair_literals;
use crate::loading::load;
use crate::pair::WordPair;
use crate::parts::PairParts;
use clause_core::Lit;
use gates::{Circuit, GateFault};
use std::alloc::Global;

/// A pair with a row loaded, and the literals of the ENV clauses on that.
#[derive(Drop)]
pub(crate) struct LoadedRow {
    pub environment: Vec<Lit>,
    pub pair: WordPair,
}

/// Loads the words of a row, and asks whether the ENV clauses hold.
pub(crate) fn loaded_row(
    alloc: Global,
    circuit: &mut Circuit,
    parts: &PairParts,
    inputs: &[Vec<Lit>],
    pair: WordPair,
) -> Result<LoadedRow, GateFault>
    ensures environment { IfOk result (λ r. r.environment.items ≡ (loaded_row (parts_view parts.now) (words_view inputs.now) (pair_view pair) circuit.old).environment) }
    ensures pair { IfOk result (λ r. pair_view r.pair ≡ (loaded_row (parts_view parts.now) (words_view inputs.now) (pair_view pair) circuit.old).pair) }
    ensures net { OnOk result (circuit.new ≡ (loaded_row (parts_view parts.now) (words_view inputs.now) (pair_view pair) circuit.old).net) }
    ensures fits { OnOk result (IsWithinLimit circuit.new) }
    ensures too_many { IfErr result (λ fault. fault ≡ GateFault.TooMany → IsOverfull (loaded_row (parts_view parts.now) (words_view inputs.now) (pair_view pair) circuit.old).net) }
    ensures extends { IsExtensionOf circuit.old circuit.new }
{
    let Ok(loaded) = load(alloc, parts.inputs.as_slice(), inputs, pair) else {
        return Err(GateFault::Memory);
    };
    let environment = pair_literals(alloc, circuit, parts.environment.as_slice(), &loaded)?;
    Ok(LoadedRow {
        environment,
        pair: loaded,
    })
}
