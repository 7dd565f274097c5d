// The nodes of a scan as a text: a line for each node, and at the end the words that the cells hold.
use crate::expr_printing::{operator_name, shift_name, unary_name};
use node_core::{Node, Scan};
use std::alloc::{AllocError, Global};

/// The printed nodes of a scan. A word is printed as `#` and its number; the start words come first and have no line.
pub fn print_nodes(alloc: Global, scan: &Scan) -> Result<String, AllocError> {
    let mut text = String::new(alloc);
    for (place, node) in scan.nodes.iter().enumerate() {
        // there are at most 1,000,000 nodes over at most 4,096 cells
        let number = scan.starts.wrapping_add(place);
        text.push_str(format!(in alloc; "#{number} := ")?.as_str())?;
        print_node(alloc, *node, &mut text)?;
        text.push_str("\n")?;
    }
    text.push_str("cells")?;
    for word in &scan.last {
        text.push_str(format!(in alloc; " #{word}")?.as_str())?;
    }
    Ok(text)
}

// What makes a word, its type, and the words that it is made of.
fn print_node(alloc: Global, node: Node, text: &mut String) -> Result<(), AllocError> {
    match node {
        Node::Constant { kind, value } => {
            let kind = kind.name();
            text.push_str(format!(in alloc; "{kind} {value}")?.as_str())
        }
        Node::Unary {
            operator,
            kind,
            operand,
        } => print_one(alloc, unary_name(operator), kind.name(), operand, text),
        Node::Binary {
            operator,
            kind,
            left,
            right,
        } => print_two(
            alloc,
            operator_name(operator),
            kind.name(),
            left,
            right,
            text,
        ),
        Node::Convert { from, to, operand } => {
            let (from, to) = (from.name(), to.name());
            text.push_str(format!(in alloc; "CONVERT {from} {to} #{operand}")?.as_str())
        }
        Node::Minimum { kind, left, right } => {
            print_two(alloc, "MIN", kind.name(), left, right, text)
        }
        Node::Maximum { kind, left, right } => {
            print_two(alloc, "MAX", kind.name(), left, right, text)
        }
        Node::IsZero { kind, operand } => {
            print_one(alloc, "IS_ZERO", kind.name(), operand, text)
        }
        Node::Absolute { kind, operand } => print_one(alloc, "ABS", kind.name(), operand, text),
        _ => print_others(alloc, node, text),
    }
}

// The nodes that have more than words.
fn print_others(alloc: Global, node: Node, text: &mut String) -> Result<(), AllocError> {
    match node {
        Node::Shift {
            shift,
            amount,
            kind,
            operand,
        } => {
            let (shift, kind) = (shift_name(shift), kind.name());
            text.push_str(format!(in alloc; "{shift} {amount} {kind} #{operand}")?.as_str())
        }
        Node::Outside {
            kind,
            range,
            operand,
        } => {
            let (kind, low, high) = (kind.name(), range.low, range.high);
            text.push_str(format!(in alloc; "OUTSIDE {low}..{high} {kind} #{operand}")?.as_str())
        }
        Node::Mux {
            kind,
            condition,
            on,
            off,
        } => {
            let kind = kind.name();
            text.push_str(format!(in alloc; "MUX {kind} #{condition} #{on} #{off}")?.as_str())
        }
        _ => Ok(()),
    }
}

fn print_one(
    alloc: Global,
    what: &str,
    kind: &str,
    operand: usize,
    text: &mut String,
) -> Result<(), AllocError> {
    text.push_str(format!(in alloc; "{what} {kind} #{operand}")?.as_str())
}

fn print_two(
    alloc: Global,
    what: &str,
    kind: &str,
    left: usize,
    right: usize,
    text: &mut String,
) -> Result<(), AllocError> {
    text.push_str(format!(in alloc; "{what} {kind} #{left} #{right}")?.as_str())
}
