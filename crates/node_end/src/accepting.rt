// The program that a text states, handed on to the nodes of its scan.
ghost use Rattle.std.specs.Prelude.{◌≡◌, IfOk, IfErr, IsTrue};
ghost use Rattle.program_tree.specs.View.{program_view};
ghost use Rattle.scan_model.specs.InRange.{IsFitToRun};
ghost use Rattle.flat_form.specs.FlatPrograms.{flat_program, is_short};
ghost use Rattle.flat_end.specs.Texts.{StatesProgram};
ghost use Rattle.node_core.specs.Scans.{scan_view, scan_of, is_small};
ghost use Rattle.query_formula_laws.specs.TypedComparisons.{IsScanOf};
ghost use Rattle.node_end.specs.NodeTexts.{HasNoNodes};

use crate::fault::AcceptFault;
use flat_end::accept_flat;
use node_core::Scan;
use program_tree::Program;
use rules::Fault;
use scan_ssa::{NodeFault, to_nodes};
use std::alloc::Global;

/// A program and the nodes of its scan.
#[derive(Drop)]
pub struct Accepted {
    pub program: Program,
    pub scan: Scan,
}

/// The program that a text states and the nodes of its scan, or the first rule that it breaks: those of `accept_flat`, and then that on
/// the number of nodes. The flat form of each program that a text states is typed as its nodes ask for, so nothing tests for that.
pub fn accept(alloc: Global, text: &[u8]) -> Result<Accepted, AcceptFault>
    ensures program { IfOk result (λ a. StatesProgram text.now (program_view a.program)) }
    ensures fit { IfOk result (λ a. IsFitToRun (program_view a.program)) }
    ensures scan { IfOk result (λ a. scan_view a.scan ≡ scan_of (flat_program (program_view a.program))) }
    ensures short { IfOk result (λ a. IsTrue (is_short (program_view a.program))) }
    ensures small { IfOk result (λ a. IsTrue (is_small (flat_program (program_view a.program)))) }
    ensures meaning { IfOk result (λ a. IsScanOf (program_view a.program) (scan_view a.scan)) }
    ensures refused { IfErr result (λ fault. HasNoNodes text.now fault) }
{
    let accepted = match accept_flat(alloc, text) {
        Ok(accepted) => accepted,
        Err(Fault::Refused(refusal)) => return Err(AcceptFault::Refused(refusal)),
        Err(Fault::Memory) => return Err(AcceptFault::Memory),
    };
    match to_nodes(alloc, &accepted.flat) {
        Ok(scan) => Ok(Accepted {
            program: accepted.program,
            scan,
        }),
        Err(NodeFault::TooMany) => Err(AcceptFault::TooManyNodes),
        Err(NodeFault::Memory) => Err(AcceptFault::Memory),
    }
}
