// The candidates of charts: of each two steps of a chart not both are active.
ghost use Rattle.std.specs.Prelude.{◌≡◌, ◌+◌, ◌*◌, ◌<◌, ◌≤◌, ◌^◌, ◌++◌, ◌&&◌, codes, length, nat_le, [], string_bytes, if◌then◌else◌, IfOk, OnOk};
ghost use Rattle.plc_types.specs.declared.elementary.Elementary.TheVariants as types;
ghost use Rattle.plc_types.specs.declared.operator.UnaryOperator.TheVariants.{Not};
ghost use Rattle.plc_types.specs.declared.operator.Operator.TheVariants.{And};
ghost use Rattle.program_tree.specs.Tree.{cell, unary, chain, no_operands, operand};
ghost use Rattle.program_tree.specs.View.{expr_view, cells_view};
ghost use Rattle.scan_model.specs.Pairs.{candidate_view, candidates_view};
ghost use Rattle.scan_model.specs.Candidates.{path_at, not_both, not_both_with, not_both_among, stands_among, exclusive_steps, paths_of};
ghost use Rattle.candidates.specs.PairView.{old_of, new_of};

use crate::pair::Pair;
use plc_types::{Elementary, Operator, UnaryOperator};
use program_tree::{Cell, ChartCells, Operand, TypedExpr};
use scan_model::Candidate;
use std::alloc::{AllocError, Global};

// A program of a pair: its name there, the place from which its cells stand among those of the pair, and its cells.
#[derive(Drop)]
struct Half<'p> {
    program: &'p str,
    start: usize,
    cells: &'p [Cell],
}

// The path of the cell at a place.
fn path_at<'p>(cells: &'p [Cell], place: usize) -> &'p str
    ensures { result.now ≡ path_at (paths_of (cells_view cells.now)) place }
{
    match cells.get(place) {
        Some(cell) => cell.path.as_str(),
        None => "",
    }
}

// `p NOT P AND Q`.
fn not_both_name(
    alloc: Global,
    program: &str,
    first: &str,
    second: &str,
) -> Result<String, AllocError>
    ensures { IfOk result (λ name. string_bytes name ≡ program.now ++ codes " NOT " ++ first.now ++ codes " AND " ++ second.now) }
{
    let mut name = String::from_str(alloc, program)?;
    name.push_str(" NOT ")?;
    name.push_str(first)?;
    name.push_str(" AND ")?;
    name.push_str(second)?;
    Ok(name)
}

// Not both of two cells are TRUE.
fn not_both_clause(alloc: Global, first: usize, second: usize) -> Result<TypedExpr, AllocError>
    ensures { IfOk result (λ e. expr_view e ≡ unary Not types.Bool (chain (cell first) (operand And types.Bool (cell second) no_operands))) }
{
    let mut operands = Vec::new(alloc);
    operands.push(Operand {
        operator: Operator::And,
        kind: Elementary::Bool,
        right: TypedExpr::Cell(second),
    })?;
    let both = TypedExpr::Chain(Box::new(alloc, TypedExpr::Cell(first))?, operands);
    let both = Box::new(alloc, both)?;
    Ok(TypedExpr::Unary(UnaryOperator::Not, Elementary::Bool, both))
}

// Not both of two steps are active, whose cells stand at these places of their program.
fn not_both(
    alloc: Global,
    half: &Half<'_>,
    first: usize,
    second: usize,
) -> Result<Candidate, AllocError>
    requires first_fits { half.now.start + first < 2 ^ 64 }
    requires second_fits { half.now.start + second < 2 ^ 64 }
    ensures { IfOk result (λ c. candidate_view c ≡ not_both half.now.program.now half.now.start (paths_of (cells_view half.now.cells.now)) first second) }
{
    let path = path_at(half.cells, first);
    let other = path_at(half.cells, second);
    let name = not_both_name(alloc, half.program, path, other)?;
    let clause = not_both_clause(alloc, half.start + first, half.start + second)?;
    Ok(Candidate { name, clause })
}

// A step, with each of so many steps that stand from a place on.
fn add_with(
    alloc: Global,
    half: &Half<'_>,
    first: usize,
    place: usize,
    steps: usize,
    found: &mut Vec<Candidate>,
) -> Result<(), AllocError>
    requires behind { first ≤ place }
    requires fits { half.now.start + place + 2 * steps < 2 ^ 64 }
    ensures { OnOk result (candidates_view found.new.items ≡ candidates_view found.old.items ++ not_both_with half.now.program.now half.now.start (paths_of (cells_view half.now.cells.now)) first place steps) }
{
    for index in 0..steps {
        let candidate = not_both(alloc, half, first, place + 2 * index)?;
        found.push(candidate)?;
    }
    Ok(())
}

// Each two of so many steps that stand from a place on, the earlier of the two first.
fn add_among(
    alloc: Global,
    half: &Half<'_>,
    place: usize,
    steps: usize,
    found: &mut Vec<Candidate>,
) -> Result<(), AllocError>
    requires { half.now.start + place + 2 * steps < 2 ^ 64 }
    ensures { OnOk result (candidates_view found.new.items ≡ candidates_view found.old.items ++ not_both_among half.now.program.now half.now.start (paths_of (cells_view half.now.cells.now)) place steps) }
{
    for index in 0..steps {
        let first = place + 2 * index;
        add_with(alloc, half, first, first + 2, steps - index - 1, found)?;
    }
    Ok(())
}

// Whether the cells of the steps of a chart, which has at most 16, stand among the cells of its program.
fn stands_among(cells: &[Cell], chart: ChartCells) -> bool
    requires { chart.steps ≤ 16 }
    ensures { result ≡ stands_among (paths_of (cells_view cells.now)) chart }
{
    chart.first <= cells.len() && 2 * chart.steps <= cells.len() - chart.first
}

// Each two steps of a chart, where it has at most 16 and stands among the cells of its program.
fn add_chart(
    alloc: Global,
    half: &Half<'_>,
    chart: ChartCells,
    found: &mut Vec<Candidate>,
) -> Result<(), AllocError>
    requires { half.now.start + length half.now.cells.now < 2 ^ 64 }
    ensures { OnOk result (candidates_view found.new.items ≡ candidates_view found.old.items ++ (if nat_le chart.steps 16 && stands_among (paths_of (cells_view half.now.cells.now)) chart then not_both_among half.now.program.now half.now.start (paths_of (cells_view half.now.cells.now)) chart.first chart.steps else [])) }
{
    if chart.steps <= 16 && stands_among(half.cells, chart) {
        add_among(alloc, half, chart.first, chart.steps, found)
    } else {
        Ok(())
    }
}

// Each two steps of each chart that has at most 16 and stands among the cells of its program.
fn add_charts(
    alloc: Global,
    half: &Half<'_>,
    charts: &[ChartCells],
    found: &mut Vec<Candidate>,
) -> Result<(), AllocError>
    requires { half.now.start + length half.now.cells.now < 2 ^ 64 }
    ensures { OnOk result (candidates_view found.new.items ≡ candidates_view found.old.items ++ exclusive_steps half.now.program.now half.now.start (paths_of (cells_view half.now.cells.now)) charts.now) }
{
    for chart in charts {
        add_chart(alloc, half, *chart, found)?;
    }
    Ok(())
}

// `OLD NOT P AND Q`: each two steps of a chart of OLD.
fn add_exclusive_of_old(
    alloc: Global,
    pair: &Pair<'_>,
    found: &mut Vec<Candidate>,
) -> Result<(), AllocError>
    ensures { OnOk result (candidates_view found.new.items ≡ candidates_view found.old.items ++ exclusive_steps (codes "OLD") 0 (paths_of (old_of pair.now).cells) (old_of pair.now).charts) }
{
    let half = Half {
        program: "OLD",
        start: 0,
        cells: pair.old.program.cells(),
    };
    add_charts(alloc, &half, &pair.old.program.charts, found)
}

// `NEW NOT P AND Q`: each two steps of a chart of NEW, whose cells stand behind those of OLD.
fn add_exclusive_of_new(
    alloc: Global,
    pair: &Pair<'_>,
    found: &mut Vec<Candidate>,
) -> Result<(), AllocError>
    ensures { OnOk result (candidates_view found.new.items ≡ candidates_view found.old.items ++ exclusive_steps (codes "NEW") (length (old_of pair.now).cells) (paths_of (new_of pair.now).cells) (new_of pair.now).charts) }
{
    let half = Half {
        program: "NEW",
        start: pair.old.program.cells().len(),
        cells: pair.new.program.cells(),
    };
    add_charts(alloc, &half, &pair.new.program.charts, found)
}

/// `OLD NOT P AND Q` and `NEW NOT P AND Q`: each two steps of each chart of both programs.
pub fn add_exclusive_of(
    alloc: Global,
    pair: &Pair<'_>,
    found: &mut Vec<Candidate>,
) -> Result<(), AllocError>
    ensures { OnOk result (candidates_view found.new.items ≡ candidates_view found.old.items ++ exclusive_steps (codes "OLD") 0 (paths_of (old_of pair.now).cells) (old_of pair.now).charts
        ++ exclusive_steps (codes "NEW") (length (old_of pair.now).cells) (paths_of (new_of pair.now).cells) (new_of pair.now).charts) }
{
    add_exclusive_of_old(alloc, pair, found)?;
    add_exclusive_of_new(alloc, pair, found)
}
