// The candidates of initial values: a cell has the value that it began with.
ghost use Rattle.std.specs.Prelude.{◌≡◌, ◌+◌, ◌<◌, ◌^◌, ◌++◌, codes, length, string_bytes, IfOk, OnOk};
ghost use Rattle.std.specs.Fmt.{signed_decimal};
ghost use Rattle.program_tree.specs.Tree.{number};
ghost use Rattle.program_tree.specs.View.{expr_view, cell_view, cells_view};
ghost use Rattle.scan_model.specs.Pairs.{candidate_view, candidates_view};
ghost use Rattle.scan_model.specs.Candidates.{is_equal, initial_values};
ghost use Rattle.candidates.specs.PairView.{old_of, new_of};

use crate::pair::Pair;
use plc_types::{DataType, Operator, Value};
use program_tree::{Cell, Operand, TypedExpr};
use scan_model::Candidate;
use std::alloc::{AllocError, Global};

// The cell at a place has this value.
fn is_equal_number(
    alloc: Global,
    place: usize,
    kind: DataType,
    value: Value,
) -> Result<TypedExpr, AllocError>
    ensures { IfOk result (λ e. expr_view e ≡ is_equal place kind (number value)) }
{
    let mut operands = Vec::new(alloc);
    operands.push(Operand {
        operator: Operator::Equal,
        kind: kind.carrier(),
        right: TypedExpr::Number(value),
    })?;
    Ok(TypedExpr::Chain(Box::new(alloc, TypedExpr::Cell(place))?, operands))
}

// `P = v`.
fn has_value(alloc: Global, path: &str, value: Value) -> Result<String, AllocError>
    ensures { IfOk result (λ text. string_bytes text ≡ path.now ++ codes " = " ++ signed_decimal value) }
{
    format!(in alloc; "{path} = {value}")
}

// `OLD P = v` or `NEW P = v`.
fn initial_name(
    alloc: Global,
    program: &str,
    path: &str,
    value: Value,
) -> Result<String, AllocError>
    ensures { IfOk result (λ name. string_bytes name ≡ program.now ++ codes " " ++ path.now ++ codes " = " ++ signed_decimal value) }
{
    let mut name = String::from_str(alloc, program)?;
    name.push_str(" ")?;
    name.push_str(has_value(alloc, path, value)?.as_str())?;
    Ok(name)
}

// A cell has its initial value.
fn initial_value(
    alloc: Global,
    program: &str,
    place: usize,
    cell: &Cell,
) -> Result<Candidate, AllocError>
    ensures { IfOk result (λ c. candidate_view c ≡ record {
      name = program.now ++ codes " " ++ (cell_view cell.now).path ++ codes " = " ++ signed_decimal cell.now.initial;
      clause = is_equal place cell.now.kind (number cell.now.initial);
    }) }
{
    let name = initial_name(alloc, program, cell.path.as_str(), cell.initial)?;
    let clause = is_equal_number(alloc, place, cell.kind, cell.initial)?;
    Ok(Candidate { name, clause })
}

// `OLD P = v` or `NEW P = v` of each cell of a program, whose places begin at a place.
fn add_initial_values(
    alloc: Global,
    program: &str,
    start: usize,
    cells: &[Cell],
    found: &mut Vec<Candidate>,
) -> Result<(), AllocError>
    requires { start + length cells.now < 2 ^ 64 }
    ensures { OnOk result (candidates_view found.new.items ≡ candidates_view found.old.items ++ initial_values program.now start (cells_view cells.now)) }
{
    for (index, cell) in cells.iter().enumerate() {
        let candidate = initial_value(alloc, program, start + index, cell)?;
        found.push(candidate)?;
    }
    Ok(())
}

/// `OLD P = v` and `NEW P = v` of each cell of both programs.
pub fn add_initial_values_of(
    alloc: Global,
    pair: &Pair<'_>,
    found: &mut Vec<Candidate>,
) -> Result<(), AllocError>
    ensures { OnOk result (candidates_view found.new.items ≡ candidates_view found.old.items ++ initial_values (codes "OLD") 0 (old_of pair.now).cells ++ initial_values (codes "NEW") (length (old_of pair.now).cells) (new_of pair.now).cells) }
{
    let old = pair.old.program.cells();
    let new = pair.new.program.cells();
    add_initial_values(alloc, "OLD", 0, old, found)?;
    add_initial_values(alloc, "NEW", old.len(), new, found)
}
