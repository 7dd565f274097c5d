ghost use Rattle.std.specs.Prelude.{◌≡◌, IfOk, IfErr, OnOk};
ghost use Rattle.gates.specs.declared.circuit.GateFault.{GateFault};
ghost use Rattle.gates.specs.Netlists.{IsOverfull, IsWithinLimit, IsExtensionOf};
ghost use Rattle.node_circuits.specs.NodeWords.{words_view};
ghost use Rattle.pair_circuits.specs.Views.{pair_view, parts_view, scan_lits_view};
ghost use Rattle.query_formulas.specs.Breaks.{scan_from};

use crate::breaks::ScanLits;
use crate::clauses::pair_literals;
use crate::outside::outside_cells;
use crate::pair::WordPair;
use crate::parts::PairParts;
use crate::rows::loaded_row;
use crate::scans::scanned_pair;
use clause_core::Lit;
use gates::{Circuit, GateFault};
use std::alloc::Global;

/// A scan, and the pair behind it.
#[derive(Drop)]
pub(crate) struct MadeScan {
    pub lits: ScanLits,
    pub pair: WordPair,
}

/// One scan of a row of words, from a pair.
pub(crate) fn scan_from(
    alloc: Global,
    circuit: &mut Circuit,
    parts: &PairParts,
    inputs: Vec<Vec<Lit>>,
    pair: WordPair,
) -> Result<MadeScan, GateFault>
    ensures lits { IfOk result (λ m. scan_lits_view m.lits ≡ (scan_from (parts_view parts.now) (words_view inputs.items) (pair_view pair) circuit.old).lits) }
    ensures pair { IfOk result (λ m. pair_view m.pair ≡ (scan_from (parts_view parts.now) (words_view inputs.items) (pair_view pair) circuit.old).pair) }
    ensures net { OnOk result (circuit.new ≡ (scan_from (parts_view parts.now) (words_view inputs.items) (pair_view pair) circuit.old).net) }
    ensures fits { OnOk result (IsWithinLimit circuit.new) }
    ensures too_many { IfErr result (λ fault. fault ≡ GateFault.TooMany → IsOverfull (scan_from (parts_view parts.now) (words_view inputs.items) (pair_view pair) circuit.old).net) }
    ensures extends { IsExtensionOf circuit.old circuit.new }
{
    let outside = outside_cells(alloc, circuit, parts.lines.as_slice(), inputs.as_slice())?;
    let row = loaded_row(alloc, circuit, parts, inputs.as_slice(), pair)?;
    let begun = circuit.count();
    let behind = scanned_pair(alloc, circuit, &parts.old_scan, &parts.new_scan, row.pair)?;
    let relates = pair_literals(alloc, circuit, parts.relates.as_slice(), &behind)?;
    let ended = circuit.count();
    Ok(MadeScan {
        lits: ScanLits {
            inputs,
            outside,
            environment: row.environment,
            begun,
            relates,
            ended,
        },
        pair: behind,
    })
}
