ghost use Rattle.std.specs.Prelude.{◌≡◌, ◌+◌, ◌<◌, ◌^◌, length, map, IfOk};
ghost use Rattle.program_tree.specs.View.{expr_view, exprs_view, program_view};
ghost use Rattle.scan_model.specs.Pairs.{clauses_among, relation_view};
ghost use Rattle.node_core.specs.Scans.{scan_view};
ghost use Rattle.pair_circuits.specs.Views.{clauses_view, parts_view};
ghost use Rattle.query_formulas.specs.Parts.{clauses_of, parts_of};

use crate::shapes::{line_shapes, shapes};
use node_core::{ClauseNodes, Scan};
use program_tree::{Program, TypedExpr};
use query_formulas::CellShape;
use scan_model::{Candidate, InputLine, Relation};
use scan_ssa::clause_nodes;
use std::alloc::{AllocError, Global};

/// What the circuits of a pair are made from: the shapes of the cells, the INPUT lines with the shapes of the cells that they name,
/// the nodes of both scans and of each clause, and how many scans from the start there are.
#[derive(Drop)]
pub struct PairParts {
    pub old: Vec<CellShape>,
    pub new: Vec<CellShape>,
    pub lines: Vec<CellShape>,
    pub inputs: Vec<InputLine>,
    pub old_scan: Scan,
    pub new_scan: Scan,
    pub candidates: Vec<ClauseNodes>,
    pub environment: Vec<ClauseNodes>,
    pub relates: Vec<ClauseNodes>,
    pub depth: u64,
}

// The nodes of clauses over so many cells.
fn clauses(alloc: Global, exprs: &[TypedExpr], cells: usize) -> Result<Vec<ClauseNodes>, AllocError>
    requires { cells < 2 ^ 63 }
    ensures { IfOk result (λ all. clauses_view all.items ≡ clauses_of cells (exprs_view exprs.now)) }
{
    let mut all = Vec::new(alloc);
    for expr in exprs {
        all.push(clause_nodes(alloc, expr, cells)?)?;
    }
    Ok(all)
}

// The nodes of the clauses of candidates.
fn candidate_clauses(
    alloc: Global,
    candidates: &[Candidate],
    cells: usize,
) -> Result<Vec<ClauseNodes>, AllocError>
    requires { cells < 2 ^ 63 }
    ensures { IfOk result (λ all. clauses_view all.items ≡ clauses_of cells (clauses_among candidates.now)) }
{
    let mut all = Vec::new(alloc);
    for candidate in candidates {
        all.push(clause_nodes(alloc, &candidate.clause, cells)?)?;
    }
    Ok(all)
}

/// What the circuits of two programs under a relation are made from: each clause's nodes are made here, once.
pub fn pair_parts(
    alloc: Global,
    old: &Program,
    new: &Program,
    relation: &Relation,
    old_scan: Scan,
    new_scan: Scan,
) -> Result<PairParts, AllocError>
    requires { length old.now.cells.items + length new.now.cells.items < 2 ^ 63 }
    ensures { IfOk result (λ p. parts_view p ≡ parts_of (record { old = program_view old.now; new = program_view new.now; relation = relation_view relation.now }) (scan_view old_scan) (scan_view new_scan)) }
{
    let cells = old.cells.len() + new.cells.len();
    let of_old = shapes(alloc, old.cells.as_slice())?;
    let of_new = shapes(alloc, new.cells.as_slice())?;
    let inputs = relation.inputs.as_slice();
    let lines = line_shapes(alloc, of_old.as_slice(), of_new.as_slice(), inputs)?;
    let mut copies = Vec::new(alloc);
    copies.extend_from_slice(inputs)?;
    let candidates = candidate_clauses(alloc, relation.candidates.as_slice(), cells)?;
    let environment = clauses(alloc, relation.environment.as_slice(), cells)?;
    let relates = candidate_clauses(alloc, relation.relate_clauses(), cells)?;
    Ok(PairParts {
        old: of_old,
        new: of_new,
        lines,
        inputs: copies,
        old_scan,
        new_scan,
        candidates,
        environment,
        relates,
        depth: relation.depth,
    })
}
