// A plain evaluator of nodes.
use node_core::{Node, Scan};
use operations::{apply, apply_unary, call_of_one};
use plc_types::{Function, Value};
use std::alloc::{AllocError, Global};

/// The values of the cells behind a scan, from those before it.
pub fn node_scan(alloc: Global, scan: &Scan, before: &[Value]) -> Result<Vec<Value>, AllocError> {
    let mut values = Vec::new(alloc);
    for value in before {
        values.push(*value)?;
    }
    for node in &scan.nodes {
        let value = value_of(*node, &values);
        values.push(value)?;
    }
    let mut cells = Vec::new(alloc);
    for word in &scan.last {
        cells.push(at(&values, *word))?;
    }
    Ok(cells)
}

fn at(values: &[Value], word: usize) -> Value {
    values.get(word).copied().unwrap_or(0)
}

fn value_of(node: Node, values: &[Value]) -> Value {
    match node {
        Node::Constant { value, .. } => value,
        Node::Unary {
            operator,
            kind,
            operand,
        } => apply_unary(operator, kind, at(values, operand)),
        Node::Binary {
            operator,
            kind,
            left,
            right,
        } => apply(operator, kind, at(values, left), at(values, right)),
        Node::Convert { from, to, operand } => {
            call_of_one(Function::Convert(from), to, at(values, operand))
        }
        Node::Absolute { kind, operand } => {
            call_of_one(Function::Absolute, kind, at(values, operand))
        }
        Node::Shift {
            shift,
            amount,
            kind,
            operand,
        } => call_of_one(Function::Shift(shift, amount), kind, at(values, operand)),
        _ => value_of_choice(node, values),
    }
}

// The nodes that compare and choose.
fn value_of_choice(node: Node, values: &[Value]) -> Value {
    match node {
        Node::Minimum { left, right, .. } => at(values, left).min(at(values, right)),
        Node::Maximum { left, right, .. } => at(values, left).max(at(values, right)),
        Node::IsZero { operand, .. } => Value::from(at(values, operand) == 0),
        Node::Outside { range, operand, .. } => {
            let value = at(values, operand);
            Value::from(value < range.low || range.high < value)
        }
        Node::Mux {
            condition,
            on,
            off,
            ..
        } => {
            if at(values, condition) == 1 {
                at(values, on)
            } else {
                at(values, off)
            }
        }
        _ => 0,
    }
}
