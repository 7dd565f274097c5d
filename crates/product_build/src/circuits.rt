ghost use Rattle.std.specs.Prelude.{◌≡◌, IfOk, IfErr};
ghost use Rattle.gates.specs.declared.circuit.GateFault.{GateFault};
ghost use Rattle.gates.specs.Order.{IsOrdered};
ghost use Rattle.program_tree.specs.View.{program_view};
ghost use Rattle.node_core.specs.Scans.{scan_view};
ghost use Rattle.query_formulas.specs.Parts.{parts_of};
ghost use Rattle.query_formulas.specs.Products.{product_of};
ghost use Rattle.pair_circuits.specs.Views.{product_view};
ghost use Rattle.query_formulas.specs.Breaks.{breaks_of};
ghost use Rattle.query_formula_laws.specs.TypedComparisons.{IsTypedComparison, IsScanOf};
ghost use Rattle.product_build.specs.Limits.{most_gates, HasFewGates, HasManyGates, HasFewLines};
ghost use Rattle.product_build.specs.MadeCircuits.{comparison_between};

use gates::GateFault;
use node_core::Scan;
use pair_circuits::{Breaks, PairParts, Product, breaks_circuit, pair_parts, product_circuit};
use program_tree::Program;
use scan_model::Relation;
use std::alloc::Global;
use std::marker::Model;

/// How many gates a circuit may have.
const MOST_GATES: u32 = 16_777_216;

/// The circuits of two programs under a relation: that of one scan from any pair, and that of scans from the start.
#[derive(Drop)]
pub struct Circuits<'p> {
    old_program: &'p Program,
    new_program: &'p Program,
    relation: &'p Relation,
    pub(crate) parts: PairParts,
    pub(crate) product: Product,
    pub(crate) breaks: Breaks,
}

impl<'p> Model for Circuits<'p> {
    ghost use Rattle.program_tree.specs.contracts.typed.TypedStmt as stmt;
    ghost use Rattle.program_tree.specs.contracts.typed.TypedExpr as expr;
    ghost use Rattle.std.specs.Coded.{codes};
    ghost use Rattle.pair_circuits.specs.Views.{parts_view, product_view, breaks_view};
    ghost use Rattle.product_build.specs.MadeCircuits.{MadeCircuits, comparison_between, AreCircuitsOf};

    ghost Value = { MadeCircuits };

    ghost coded = { Prim.hlevel (codes, stmt.the_row.coded, expr.the_row.coded) };

    ghost view = { λ m. record { old_program = m.old_program.now; new_program = m.new_program.now; relation = m.relation.now; product = product_view m.product; breaks = breaks_view m.breaks } };

    ghost invariant = { λ m. AreCircuitsOf (comparison_between m.old_program.now m.new_program.now m.relation.now) (parts_view m.parts) (product_view m.product) (breaks_view m.breaks) };
}

impl<'p> Circuits<'p> {
    /// What the circuits are made from.
    pub fn parts(&self) -> &PairParts {
        &self.parts
    }

    /// The circuit of one scan from any pair.
    pub fn product(&self) -> &Product
        ensures product { product_view result.now ≡ self.now.product }
        ensures ordered { IsOrdered result.now.circuit }
    {
        &self.product
    }
}

/// The circuits of two programs under a relation, from the nodes of their scans. Each circuit has at most 16,777,216 gates (M7); that
/// of one scan is made first, and none is made further than that.
pub fn product<'p>(
    alloc: Global,
    old: &'p Program,
    old_scan: Scan,
    new: &'p Program,
    new_scan: Scan,
    relation: &'p Relation,
) -> Result<Circuits<'p>, GateFault>
    requires typed { IsTypedComparison (comparison_between old.now new.now relation.now) }
    requires lines { HasFewLines (comparison_between old.now new.now relation.now) }
    requires old_scan { IsScanOf (program_view old.now) (scan_view old_scan) }
    requires new_scan { IsScanOf (program_view new.now) (scan_view new_scan) }
    ensures old { IfOk result (λ m. m.old_program ≡ old.now) }
    ensures new { IfOk result (λ m. m.new_program ≡ new.now) }
    ensures relation { IfOk result (λ m. m.relation ≡ relation.now) }
    ensures product { IfOk result (λ m. m.product ≡ product_of (parts_of (comparison_between old.now new.now relation.now) (scan_view old_scan) (scan_view new_scan)) most_gates) }
    ensures breaks { IfOk result (λ m. m.breaks ≡ breaks_of (parts_of (comparison_between old.now new.now relation.now) (scan_view old_scan) (scan_view new_scan)) most_gates) }
    ensures few { IfOk result (λ m. HasFewGates (comparison_between old.now new.now relation.now) (scan_view old_scan) (scan_view new_scan)) }
    ensures too_many { IfErr result (λ fault. fault ≡ GateFault.TooMany → HasManyGates (comparison_between old.now new.now relation.now) (scan_view old_scan) (scan_view new_scan)) }
{
    let Ok(parts) = pair_parts(alloc, old, new, relation, old_scan, new_scan) else {
        return Err(GateFault::Memory);
    };
    let product = product_circuit(alloc, &parts, MOST_GATES)?;
    let breaks = breaks_circuit(alloc, &parts, MOST_GATES)?;
    Ok(Circuits {
        old_program: old,
        new_program: new,
        relation,
        parts,
        product,
        breaks,
    })
}
