// The words of standard functions.
ghost use Rattle.std.specs.Prelude.{◌≡◌, ◌<◌, IfOk, IfErr, OnOk, length, pos, slice_index_or};
ghost use Rattle.plc_types.specs.declared.function.Function.TheVariants.{Convert, Absolute};
ghost use Rattle.program_tree.specs.OperandTypes.{source_of};
ghost use Rattle.node_core.specs.declared.node.Node.{Node};
ghost use Rattle.node_core.specs.declared.node.Node.TheVariants as nodes;
ghost use Rattle.node_core.specs.Words.{nothing, of_one, of_many, limited_word, selected_word, called_word};
ghost use Rattle.scan_ssa.specs.Making.{list_view, IsOver};
ghost use Rattle.scan_ssa.specs.Folds.{fold_node};

use crate::fault::NodeFault;
use crate::making::make;
use crate::nodes::Making;
use node_core::Node;
use plc_types::{Elementary, Function, Shift};

/// The type of a function's only operand.
pub fn source_of(function: Function, kind: Elementary) -> Elementary
    ensures { result ≡ source_of function kind }
{
    match function {
        Function::Convert(from) => from,
        _ => kind,
    }
}

/// The word of a function of words.
#[tactic(auto, unfolding(node_core::specs::Words::called_word))]
pub fn call_standard(
    making: &mut Making,
    function: Function,
    kind: Elementary,
    words: &[usize],
) -> Result<usize, NodeFault>
    ensures word { IfOk result (λ w. w ≡ (called_word function kind words.now (list_view making.old)).word) }
    ensures list { OnOk result (list_view making.new ≡ (called_word function kind words.now (list_view making.old)).list) }
    ensures too_many { IfErr result (λ e. e ≡ NodeFault.TooMany → IsOver making.old.limit (length (called_word function kind words.now (list_view making.old)).list.nodes)) }
    ensures limit { making.new.limit ≡ making.old.limit }
{
    match function {
        Function::Convert(_) => convert(making, source_of(function, kind), kind, words),
        Function::Absolute => absolute(making, kind, words),
        Function::Minimum => fold(making, true, kind, words),
        Function::Maximum => fold(making, false, kind, words),
        Function::Limit => limit(making, kind, words),
        Function::Select => select(making, kind, words),
        Function::Shift(shift, amount) => move_bits(making, shift, amount, kind, words),
    }
}

// What has not as many operands as it asks for is 0.
pub fn nothing(making: &mut Making, kind: Elementary) -> Result<usize, NodeFault>
    ensures word { IfOk result (λ w. w ≡ (nothing kind (list_view making.old)).word) }
    ensures list { OnOk result (list_view making.new ≡ (nothing kind (list_view making.old)).list) }
    ensures too_many { IfErr result (λ e. e ≡ NodeFault.TooMany → IsOver making.old.limit (length (nothing kind (list_view making.old)).list.nodes)) }
    ensures limit { making.new.limit ≡ making.old.limit }
{
    make(making, Node::Constant { kind, value: 0 })
}

fn convert(
    making: &mut Making,
    from: Elementary,
    to: Elementary,
    words: &[usize],
) -> Result<usize, NodeFault>
    ensures word { IfOk result (λ w. w ≡ (of_one (nodes.Convert from to) to words.now (list_view making.old)).word) }
    ensures list { OnOk result (list_view making.new ≡ (of_one (nodes.Convert from to) to words.now (list_view making.old)).list) }
    ensures too_many { IfErr result (λ e. e ≡ NodeFault.TooMany → IsOver making.old.limit (length (of_one (nodes.Convert from to) to words.now (list_view making.old)).list.nodes)) }
    ensures limit { making.new.limit ≡ making.old.limit }
{
    if words.len() != 1 {
        return nothing(making, to);
    }
    let operand = words[0];
    make(making, Node::Convert { from, to, operand })
}

fn absolute(making: &mut Making, kind: Elementary, words: &[usize]) -> Result<usize, NodeFault>
    ensures word { IfOk result (λ w. w ≡ (of_one (nodes.Absolute kind) kind words.now (list_view making.old)).word) }
    ensures list { OnOk result (list_view making.new ≡ (of_one (nodes.Absolute kind) kind words.now (list_view making.old)).list) }
    ensures too_many { IfErr result (λ e. e ≡ NodeFault.TooMany → IsOver making.old.limit (length (of_one (nodes.Absolute kind) kind words.now (list_view making.old)).list.nodes)) }
    ensures limit { making.new.limit ≡ making.old.limit }
{
    if words.len() != 1 {
        return nothing(making, kind);
    }
    let operand = words[0];
    make(making, Node::Absolute { kind, operand })
}

fn move_bits(
    making: &mut Making,
    shift: Shift,
    amount: u8,
    kind: Elementary,
    words: &[usize],
) -> Result<usize, NodeFault>
    ensures word { IfOk result (λ w. w ≡ (of_one (nodes.Shift shift amount kind) kind words.now (list_view making.old)).word) }
    ensures list { OnOk result (list_view making.new ≡ (of_one (nodes.Shift shift amount kind) kind words.now (list_view making.old)).list) }
    ensures too_many { IfErr result (λ e. e ≡ NodeFault.TooMany → IsOver making.old.limit (length (of_one (nodes.Shift shift amount kind) kind words.now (list_view making.old)).list.nodes)) }
    ensures limit { making.new.limit ≡ making.old.limit }
{
    if words.len() != 1 {
        return nothing(making, kind);
    }
    let operand = words[0];
    make(
        making,
        Node::Shift {
            shift,
            amount,
            kind,
            operand,
        },
    )
}

// MIN or MAX of words, from left to right.
fn fold(
    making: &mut Making,
    least: bool,
    kind: Elementary,
    words: &[usize],
) -> Result<usize, NodeFault>
    ensures word { IfOk result (λ w. w ≡ (of_many (fold_node least kind) kind words.now (list_view making.old)).word) }
    ensures list { OnOk result (list_view making.new ≡ (of_many (fold_node least kind) kind words.now (list_view making.old)).list) }
    ensures too_many { IfErr result (λ e. e ≡ NodeFault.TooMany → IsOver making.old.limit (length (of_many (fold_node least kind) kind words.now (list_view making.old)).list.nodes)) }
    ensures limit { making.new.limit ≡ making.old.limit }
{
    if words.is_empty() {
        return nothing(making, kind);
    }
    let mut word = words[0];
    for i in 1..words.len() {
        let node = fold_node(least, kind, word, words[i]);
        word = make(making, node)?;
    }
    Ok(word)
}

fn fold_node(least: bool, kind: Elementary, left: usize, right: usize) -> Node
    ensures { result ≡ fold_node least kind left right }
{
    if least {
        Node::Minimum { kind, left, right }
    } else {
        Node::Maximum { kind, left, right }
    }
}

// LIMIT of a lower limit, a value and an upper limit.
fn limit(making: &mut Making, kind: Elementary, words: &[usize]) -> Result<usize, NodeFault>
    ensures word { IfOk result (λ w. w ≡ (limited_word kind words.now (list_view making.old)).word) }
    ensures list { OnOk result (list_view making.new ≡ (limited_word kind words.now (list_view making.old)).list) }
    ensures too_many { IfErr result (λ e. e ≡ NodeFault.TooMany → IsOver making.old.limit (length (limited_word kind words.now (list_view making.old)).list.nodes)) }
    ensures limit { making.new.limit ≡ making.old.limit }
{
    if words.len() != 3 {
        return nothing(making, kind);
    }
    let low = words[0];
    let value = words[1];
    let high = words[2];
    let left = make(
        making,
        Node::Maximum {
            kind,
            left: value,
            right: low,
        },
    )?;
    make(
        making,
        Node::Minimum {
            kind,
            left,
            right: high,
        },
    )
}

// SEL of a choice and two values, the second of which it takes where the choice is TRUE.
fn select(making: &mut Making, kind: Elementary, words: &[usize]) -> Result<usize, NodeFault>
    ensures word { IfOk result (λ w. w ≡ (selected_word kind words.now (list_view making.old)).word) }
    ensures list { OnOk result (list_view making.new ≡ (selected_word kind words.now (list_view making.old)).list) }
    ensures too_many { IfErr result (λ e. e ≡ NodeFault.TooMany → IsOver making.old.limit (length (selected_word kind words.now (list_view making.old)).list.nodes)) }
    ensures limit { making.new.limit ≡ making.old.limit }
{
    if words.len() != 3 {
        return nothing(making, kind);
    }
    let condition = words[0];
    let off = words[1];
    let on = words[2];
    make(
        making,
        Node::Mux {
            kind,
            condition,
            on,
            off,
        },
    )
}
