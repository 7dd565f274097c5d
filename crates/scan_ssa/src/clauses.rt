// The nodes of a clause.
ghost use Rattle.std.specs.Prelude.{◌≡◌, ◌<◌, ◌^◌, IfOk};
ghost use Rattle.program_tree.specs.View.{expr_view};
ghost use Rattle.node_core.specs.Scans.{clause_of, clause_view};

use crate::fault::NodeFault;
use crate::held::Held;
use crate::nodes::Making;
use crate::words::word_of;
use node_core::ClauseNodes;
use plc_types::Elementary;
use program_tree::TypedExpr;
use std::alloc::{AllocError, Global};

/// The nodes of a clause over so many cells, those of OLD and NEW together.
pub fn clause_nodes(
    alloc: Global,
    expr: &TypedExpr,
    cells: usize,
) -> Result<ClauseNodes, AllocError>
    requires { cells < 2 ^ 63 }
    ensures { IfOk result (λ c. clause_view c ≡ clause_of cells (expr_view expr.now)) }
{
    let starts = cells + 1;
    let mut making = Making {
        starts,
        limit: None,
        nodes: Vec::new(alloc),
        fault: cells,
    };
    match word_of(
        &mut making,
        &Held::Starts(cells),
        Elementary::Bool,
        expr,
        alloc,
    ) {
        Ok(value) => Ok(ClauseNodes {
            starts,
            nodes: making.nodes,
            value,
            fault: making.fault,
        }),
        Err(NodeFault::Memory) => Err(AllocError),
        Err(NodeFault::TooMany) => unreachable!(),
    }
}
