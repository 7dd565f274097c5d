ghost use Rattle.std.specs.Prelude.{◌≡◌, IfOk, IfErr, OnOk};
ghost use Rattle.gates.specs.declared.circuit.GateFault.{GateFault};
ghost use Rattle.gates.specs.Netlists.{IsOverfull, IsWithinLimit, IsExtensionOf};
ghost use Rattle.pair_circuits.specs.Views.{pair_view, parts_view};
ghost use Rattle.query_formulas.specs.Products.{consequences_from};

use crate::clauses::pair_literals;
use crate::pair::WordPair;
use crate::parts::PairParts;
use crate::scans::scanned_pair;
use clause_core::Lit;
use gates::{Circuit, GateFault};
use std::alloc::Global;

/// The pair behind a scan, and literals on it: the candidates, and the RELATE clauses.
#[derive(Drop)]
pub(crate) struct Consequences {
    pub pair: WordPair,
    pub after: Vec<Lit>,
    pub relates: Vec<Lit>,
}

/// The pair behind a scan of both programs, and its literals.
pub(crate) fn literals_behind(
    alloc: Global,
    circuit: &mut Circuit,
    parts: &PairParts,
    pair: WordPair,
) -> Result<Consequences, GateFault>
    ensures after { IfOk result (λ r. r.after.items ≡ (consequences_from (parts_view parts.now) (pair_view pair) circuit.old).after) }
    ensures relates { IfOk result (λ r. r.relates.items ≡ (consequences_from (parts_view parts.now) (pair_view pair) circuit.old).relates) }
    ensures net { OnOk result (circuit.new ≡ (consequences_from (parts_view parts.now) (pair_view pair) circuit.old).net) }
    ensures fits { OnOk result (IsWithinLimit circuit.new) }
    ensures too_many { IfErr result (λ fault. fault ≡ GateFault.TooMany → IsOverfull (consequences_from (parts_view parts.now) (pair_view pair) circuit.old).net) }
    ensures extends { IsExtensionOf circuit.old circuit.new }
{
    let behind = scanned_pair(alloc, circuit, &parts.old_scan, &parts.new_scan, pair)?;
    let after = pair_literals(alloc, circuit, parts.candidates.as_slice(), &behind)?;
    let relates = pair_literals(alloc, circuit, parts.relates.as_slice(), &behind)?;
    Ok(Consequences {
        pair: behind,
        after,
        relates,
    })
}
