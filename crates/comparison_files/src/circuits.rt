// The circuits of what is compared.
ghost use Rattle.std.specs.Prelude.{◌≡◌, IfOk, IfErr, OnOk};
ghost use Rattle.product_build.specs.Limits.{HasFewGates, HasManyGates};
ghost use Rattle.product_build.specs.MadeCircuits.{comparison_of, formula_of};
ghost use Rattle.command_files.specs.Texts.{Texts};
ghost use Rattle.comparison_files.specs.Accepting.{nodes_of, AreStated, IsRefused, IsTooLarge};
ghost use Rattle.comparison_files.specs.Comparing.{formulas_of};
ghost use Rattle.comparison_files.specs.Faults.{IfFault, IfFaultOf};
ghost use Rattle.comparison_files.specs.Held.{comparison_in};
ghost use Rattle.comparison_files.specs.Scans.{AreScansOf};

use crate::accept::Scans;
use crate::compared::Compared;
use crate::fault::CompareFault;
use command_answers::Source;
use gates::GateFault;
use product_build::{Circuits, product};
use rules::Rule;
use std::alloc::Global;

/// The circuits of what is compared, or that they have too many gates. What was read is typed, so nothing tests for that.
pub fn circuits_of<'p>(
    alloc: Global,
    compared: &'p Compared,
    scans: Scans,
) -> Result<Circuits<'p>, CompareFault>
    requires { AreScansOf (comparison_in compared.now) scans }
    ensures compared { IfOk result (λ m. comparison_of m ≡ comparison_in compared.now) }
    ensures formulas { IfOk result (λ m. formula_of m ≡ formulas_of (comparison_in compared.now)) }
    ensures few { let c = comparison_in compared.now in OnOk result (HasFewGates c (nodes_of c.old) (nodes_of c.new)) }
    ensures too_many { let c = comparison_in compared.now in IfErr result (IfFaultOf Source.Relation (λ r. ⊥) (λ l. (l ≡ Rule.TooManyGates) × HasManyGates c (nodes_of c.old) (nodes_of c.new))) }
    ensures refused { (t : Texts) → AreStated t (comparison_in compared.now) → IfErr result (IfFault (IsRefused t) (IsTooLarge t)) }
{
    let Scans { old, new } = scans;
    match product(
        alloc,
        &compared.old_program,
        old,
        &compared.new_program,
        new,
        &compared.relation,
    ) {
        Ok(circuits) => Ok(circuits),
        Err(GateFault::TooMany) => Err(CompareFault::TooLarge(
            Source::Relation,
            Rule::TooManyGates,
        )),
        Err(GateFault::Memory) => Err(CompareFault::Memory),
    }
}
