ghost use Rattle.std.specs.Prelude.{◌≡◌, IfOk, IfErr, OnOk};
ghost use Rattle.gates.specs.declared.circuit.GateFault.{GateFault};
ghost use Rattle.gates.specs.Netlists.{IsOverfull, IsWithinLimit, IsExtensionOf};
ghost use Rattle.node_circuits.specs.NodeWords.{words_view, node_of, words_of_nodes};
ghost use Rattle.node_circuits.specs.Makes.{Makes};

use crate::node_rows::{
    absolute_word, binary_word, constant_word, convert, greater, lesser, mux_word, outside_word,
    shift_word, unary_word, zero_word,
};
use clause_core::Lit;
use gates::{Circuit, GateFault};
use node_core::Node;
use std::alloc::Global;

// The word of a node.
fn node_word(
    alloc: Global,
    circuit: &mut Circuit,
    words: &[Vec<Lit>],
    node: Node,
) -> Result<Vec<Lit>, GateFault>
    ensures { Makes (node_of (words_view words.now) node circuit.old) circuit.old circuit.new result }
{
    match node {
        Node::Constant { kind, value } => constant_word(alloc, circuit, kind, value),
        Node::Unary {
            operator,
            kind,
            operand,
        } => unary_word(alloc, circuit, words, operator, kind, operand),
        Node::Binary {
            operator,
            kind,
            left,
            right,
        } => binary_word(alloc, circuit, words, operator, kind, left, right),
        Node::Convert { from, to, operand } => convert(alloc, circuit, words, from, to, operand),
        Node::Absolute { kind, operand } => absolute_word(alloc, circuit, words, kind, operand),
        Node::Minimum { kind, left, right } => lesser(alloc, circuit, words, kind, left, right),
        Node::Maximum { kind, left, right } => greater(alloc, circuit, words, kind, left, right),
        Node::Shift {
            shift,
            amount,
            kind,
            operand,
        } => shift_word(alloc, circuit, words, shift, amount, kind, operand),
        Node::IsZero { kind, operand } => zero_word(alloc, circuit, words, kind, operand),
        Node::Outside {
            kind,
            range,
            operand,
        } => outside_word(alloc, circuit, words, kind, range, operand),
        Node::Mux {
            kind,
            condition,
            on,
            off,
        } => mux_word(alloc, circuit, words, kind, condition, on, off),
    }
}

/// The words that are there, and behind them those of the nodes, in order: exactly their gates are made, each once. Where a
/// gate is refused, the circuit still begins with the gates that it had.
pub fn encode(
    alloc: Global,
    circuit: &mut Circuit,
    nodes: &[Node],
    words: Vec<Vec<Lit>>,
) -> Result<Vec<Vec<Lit>>, GateFault>
    ensures words { IfOk result (λ all. words_view all.items ≡ (words_of_nodes nodes.now (words_view words.items) circuit.old).words) }
    ensures net { OnOk result (circuit.new ≡ (words_of_nodes nodes.now (words_view words.items) circuit.old).net) }
    ensures fits { OnOk result (IsWithinLimit circuit.new) }
    ensures too_many { IfErr result (λ fault. fault ≡ GateFault.TooMany → IsOverfull (words_of_nodes nodes.now (words_view words.items) circuit.old).net) }
    ensures extends { IsExtensionOf circuit.old circuit.new }
{
    let mut words = words;
    for node in nodes {
        let word = node_word(alloc, circuit, words.as_slice(), *node)?;
        let Ok(()) = words.push(word) else {
            return Err(GateFault::Memory);
        };
    }
    circuit.count();
    Ok(words)
}
