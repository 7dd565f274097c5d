ghost use Rattle.std.specs.Prelude.{◌≡◌, ◌++◌, IfOk, IfErr, OnOk};
ghost use Rattle.gates.specs.declared.circuit.GateFault.{GateFault};
ghost use Rattle.gates.specs.Netlists.{IsOverfull, IsWithinLimit, IsExtensionOf};
ghost use Rattle.node_circuits.specs.NodeWords.{words_view};
ghost use Rattle.query_formulas.specs.Literals.{outside_cell, outside_one, outside_cells};

use clause_core::Lit;
use gates::{Circuit, GateFault};
use query_formulas::CellShape;
use std::alloc::Global;
use word_circuits::outside;

// Whether a word lies outside of its cell's range.
fn outside_cell(
    alloc: Global,
    circuit: &mut Circuit,
    cell: CellShape,
    word: &[Lit],
) -> Result<Lit, GateFault>
    ensures lit { IfOk result (λ l. l ≡ (outside_cell cell word.now circuit.old).lit) }
    ensures net { OnOk result (circuit.new ≡ (outside_cell cell word.now circuit.old).net) }
    ensures fits { OnOk result (IsWithinLimit circuit.new) }
    ensures too_many { IfErr result (λ fault. fault ≡ GateFault.TooMany → IsOverfull (outside_cell cell word.now circuit.old).net) }
    ensures extends { IsExtensionOf circuit.old circuit.new }
{
    outside(
        alloc,
        circuit,
        cell.kind.is_signed(),
        word,
        cell.range.low,
        cell.range.high,
    )
}

// Adds a literal for a bounded cell, and none for another.
fn add_outside(
    alloc: Global,
    circuit: &mut Circuit,
    cell: CellShape,
    word: &[Lit],
    lits: &mut Vec<Lit>,
) -> Result<(), GateFault>
    ensures lits { OnOk result (lits.new.items ≡ lits.old.items ++ (outside_one cell word.now circuit.old).lits) }
    ensures net { OnOk result (circuit.new ≡ (outside_one cell word.now circuit.old).net) }
    ensures fits { OnOk result (IsWithinLimit circuit.new) }
    ensures too_many { IfErr result (λ fault. fault ≡ GateFault.TooMany → IsOverfull (outside_one cell word.now circuit.old).net) }
    ensures extends { IsExtensionOf circuit.old circuit.new }
{
    if !cell.bounded {
        circuit.count();
        return Ok(());
    }
    let lit = outside_cell(alloc, circuit, cell, word)?;
    let Ok(()) = lits.push(lit) else {
        return Err(GateFault::Memory);
    };
    Ok(())
}

/// For each bounded cell whether its word lies outside of its range.
pub(crate) fn outside_cells(
    alloc: Global,
    circuit: &mut Circuit,
    cells: &[CellShape],
    words: &[Vec<Lit>],
) -> Result<Vec<Lit>, GateFault>
    ensures lits { IfOk result (λ l. l.items ≡ (outside_cells cells.now (words_view words.now) circuit.old).lits) }
    ensures net { OnOk result (circuit.new ≡ (outside_cells cells.now (words_view words.now) circuit.old).net) }
    ensures fits { OnOk result (IsWithinLimit circuit.new) }
    ensures too_many { IfErr result (λ fault. fault ≡ GateFault.TooMany → IsOverfull (outside_cells cells.now (words_view words.now) circuit.old).net) }
    ensures extends { IsExtensionOf circuit.old circuit.new }
{
    let mut lits = Vec::new(alloc);
    let count = cells.len().min(words.len());
    for i in 0..count {
        add_outside(alloc, circuit, cells[i], words[i].as_slice(), &mut lits)?;
    }
    circuit.count();
    Ok(lits)
}
