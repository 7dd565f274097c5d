// The candidates of cells that both programs have.
ghost use Rattle.std.specs.Prelude.{◌≡◌, ◌+◌, ◌<◌, ◌^◌, ◌++◌, List, length, option_map, IfOk, IfSome, OnOk};
ghost use Rattle.plc_types.specs.Enumerations.{paired_type};
ghost use Rattle.clause_types.specs.PairedTypes.{paired_in};
ghost use Rattle.program_tree.specs.Tree.{cell};
ghost use Rattle.program_tree.specs.View.{expr_view, cell_view, cells_view};
ghost use Rattle.scan_model.specs.Pairs.{CandidateData, candidate_view, candidates_view};
ghost use Rattle.scan_model.specs.Candidates.{is_equal, same_cells};
ghost use Rattle.candidates.specs.ByPath.{found_view};
ghost use Rattle.candidates.specs.PairView.{old_of, new_of};
ghost use Rattle.candidates.specs.Candidates.{before, same_found};

use crate::pair::Pair;
use clause_types::PairedTypes;
use plc_types::{DataType, Operator};
use program_tree::{Cell, Operand, TypedExpr};
use scan_model::Candidate;
use std::alloc::{AllocError, Global};

// The cell at a place has the value of another.
fn is_equal_cell(
    alloc: Global,
    place: usize,
    kind: DataType,
    other: usize,
) -> Result<TypedExpr, AllocError>
    ensures { IfOk result (λ e. expr_view e ≡ is_equal place kind (cell other)) }
{
    let mut operands = Vec::new(alloc);
    operands.push(Operand {
        operator: Operator::Equal,
        kind: kind.carrier(),
        right: TypedExpr::Cell(other),
    })?;
    Ok(TypedExpr::Chain(Box::new(alloc, TypedExpr::Cell(place))?, operands))
}

// `SAME P` of a cell of OLD, where NEW, whose cells stand behind so many of OLD, has a cell of this path and type.
fn same(
    alloc: Global,
    types: &PairedTypes<'_>,
    cell: &Cell,
    place: usize,
    behind: usize,
    other: Option<(usize, &Cell)>,
) -> Result<Option<Candidate>, AllocError>
    requires { IfSome other (λ d. behind + d.0 < 2 ^ 64) }
    ensures { IfOk result (λ same. (rest : List CandidateData) → before (option_map candidate_view same) rest ≡ same_found (paired_in types.now) (cell_view cell.now) place behind (found_view other.entry) ++ rest) }
{
    match other {
        Some((other, of_new)) if cell.kind.is_same(types.paired(of_new.kind)) => {
            let path = cell.path.as_str();
            let name = format!(in alloc; "SAME {path}")?;
            let clause = is_equal_cell(alloc, place, cell.kind, behind + other)?;
            Ok(Some(Candidate { name, clause }))
        }
        _ => Ok(None),
    }
}

// Adds a candidate, where there is one.
fn add(candidate: Option<Candidate>, found: &mut Vec<Candidate>) -> Result<(), AllocError>
    ensures { OnOk result ((rest : List CandidateData) → candidates_view found.new.items ++ rest ≡ candidates_view found.old.items ++ before (option_map candidate_view candidate) rest) }
{
    if let Some(candidate) = candidate {
        found.push(candidate)?;
    }
    Ok(())
}

// `SAME P` of each cell of OLD.
fn add_same(
    alloc: Global,
    pair: &Pair<'_>,
    old: &[Cell],
    found: &mut Vec<Candidate>,
) -> Result<(), AllocError>
    requires { length old.now + length pair.now.new.program.now.cells.items < 2 ^ 64 }
    ensures { OnOk result (candidates_view found.new.items ≡ candidates_view found.old.items ++ same_cells (paired_in pair.now.scope.types) 0 (length old.now) (new_of pair.now).cells (cells_view old.now)) }
{
    let types = &pair.scope.types;
    for (place, cell) in old.iter().enumerate() {
        let other = pair.find_new(cell.path.as_str());
        let candidate = same(alloc, types, cell, place, old.len(), other)?;
        add(candidate, found)?;
    }
    Ok(())
}

/// `SAME P` of each cell of OLD whose path and type a cell of NEW has too.
pub fn add_same_of(
    alloc: Global,
    pair: &Pair<'_>,
    found: &mut Vec<Candidate>,
) -> Result<(), AllocError>
    ensures { OnOk result (candidates_view found.new.items ≡ candidates_view found.old.items ++ same_cells (paired_type (old_of pair.now).types (new_of pair.now).types) 0 (length (old_of pair.now).cells) (new_of pair.now).cells (old_of pair.now).cells) }
{
    add_same(alloc, pair, pair.old.program.cells(), found)
}
