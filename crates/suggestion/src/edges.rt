// The numbers that stand in texts, and the bounds of cells.
use plc_types::{DataType, Operator, Value};
use program_tree::Program;
use scan_model::{InputLine, Relation};
use source_tree::{Terminal, Tok};
use std::alloc::{AllocError, Global};

// How many tokens of a text are looked at.
const MOST_TOKENS: usize = 100_000;

/// The numbers among the tokens of a text; with a minus sign before it a number counts as it is and as its negative.
pub fn numbers_of(toks: &[Tok<'_>], numbers: &mut Vec<Value>) -> Result<(), AllocError> {
    let mut is_behind_minus = false;
    for tok in toks.iter().take(MOST_TOKENS) {
        if let Terminal::Number(number) = tok.terminal {
            let value = number as Value;
            numbers.push(value)?;
            if is_behind_minus {
                numbers.push(value.wrapping_neg())?;
            }
        }
        is_behind_minus = tok.terminal == Terminal::Operator(Operator::Minus);
    }
    Ok(())
}

fn add_bounds_of_cells(program: &Program, edges: &mut Vec<Value>) -> Result<(), AllocError> {
    for cell in &program.cells {
        if cell.is_subrange && matches!(cell.kind, DataType::Elementary(_)) {
            edges.push(cell.range.low)?;
            edges.push(cell.range.high)?;
        }
    }
    Ok(())
}

fn add_bounds_of_inputs(relation: &Relation, edges: &mut Vec<Value>) -> Result<(), AllocError> {
    for line in &relation.inputs {
        let range = match line {
            InputLine::Both { range, .. } => *range,
            InputLine::Old { range, .. } => *range,
            InputLine::New { range, .. } => *range,
        };
        edges.push(range.low)?;
        edges.push(range.high)?;
    }
    Ok(())
}

/// The numbers to which bounds are widened, each once, rising: 0, those of the texts, and the bounds of subranges and of inputs.
pub fn edges_of(
    alloc: Global,
    old: &Program,
    new: &Program,
    relation: &Relation,
    numbers: &[Value],
) -> Result<Vec<Value>, AllocError> {
    let mut edges: Vec<Value> = Vec::new(alloc);
    edges.push(0)?;
    for number in numbers {
        edges.push(*number)?;
    }
    add_bounds_of_cells(old, &mut edges)?;
    add_bounds_of_cells(new, &mut edges)?;
    add_bounds_of_inputs(relation, &mut edges)?;
    edges.sort_unstable();
    edges.dedup();
    Ok(edges)
}
