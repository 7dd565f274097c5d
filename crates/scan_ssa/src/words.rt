// The words of expressions.
ghost use Rattle.std.specs.Prelude.{◌≡◌, [], ◌∷◌, IfOk, IfErr, OnOk, length};
ghost use Rattle.program_tree.specs.View.{expr_view, operand_view, operands_of, operands_view, arguments_view};
ghost use Rattle.node_core.specs.Words.{word_of, word_on, words_of};
ghost use Rattle.program_tree.specs.Tree.{call_standard};
ghost use Rattle.program_tree.specs.OperandTypes.{first_kind, first_operand_kind};
ghost use Rattle.scan_ssa.specs.Making.{list_view, IsOver};
ghost use Rattle.scan_ssa.specs.Held.{held_store};

use crate::fault::NodeFault;
use crate::functions::{call_standard, nothing, source_of};
use crate::held::{Held, word_at};
use crate::making::{join, make};
use crate::nodes::Making;
use node_core::Node;
use plc_types::{Elementary, Function};
use program_tree::{Operand, TypedExpr};
use std::alloc::Global;

/// The word of an expression whose place asks for a type.
#[cycle(words)]
pub fn word_of(
    making: &mut Making,
    held: &Held<'_>,
    kind: Elementary,
    expr: &TypedExpr,
    alloc: Global,
) -> Result<usize, NodeFault>
    ensures word { IfOk result (λ w. w ≡ (word_of (held_store held.now) kind (expr_view expr.now) (list_view making.old)).word) }
    ensures list { OnOk result (list_view making.new ≡ (word_of (held_store held.now) kind (expr_view expr.now) (list_view making.old)).list) }
    ensures too_many { IfErr result (λ e. e ≡ NodeFault.TooMany → IsOver making.old.limit (length (word_of (held_store held.now) kind (expr_view expr.now) (list_view making.old)).list.nodes)) }
    ensures limit { making.new.limit ≡ making.old.limit }
{
    match expr {
        TypedExpr::Number(value) => make(
            making,
            Node::Constant {
                kind,
                value: *value,
            },
        ),
        TypedExpr::Cell(place) => Ok(word_at(held, *place)),
        TypedExpr::Unary(operator, of, inner) => {
            let operand = word_of(making, held, *of, inner, alloc)?;
            make(
                making,
                Node::Unary {
                    operator: *operator,
                    kind: *of,
                    operand,
                },
            )
        }
        TypedExpr::Chain(first, operands) => {
            let left = word_of(making, held, first_kind(kind, operands), first, alloc)?;
            word_on(making, held, left, operands, alloc)
        }
        TypedExpr::CallStandard(function, of, arguments) => {
            word_of_call(making, held, *function, *of, arguments, alloc)
        }
        TypedExpr::CallFunction(_, _) => nothing(making, kind),
    }
}

// The type of the first operand of a chain.
fn first_kind(kind: Elementary, operands: &[Operand]) -> Elementary
    ensures { result ≡ first_kind kind (operands_view operands.now) }
{
    if operands.is_empty() {
        kind
    } else {
        operands[0].kind
    }
}

// A chain from a word on.
#[cycle(words)]
fn word_on(
    making: &mut Making,
    held: &Held<'_>,
    mut left: usize,
    operands: &[Operand],
    alloc: Global,
) -> Result<usize, NodeFault>
    ensures word { IfOk result (λ w. w ≡ (word_on (held_store held.now) left (operands_view operands.now) (list_view making.old)).word) }
    ensures list { OnOk result (list_view making.new ≡ (word_on (held_store held.now) left (operands_view operands.now) (list_view making.old)).list) }
    ensures too_many { IfErr result (λ e. e ≡ NodeFault.TooMany → IsOver making.old.limit (length (word_on (held_store held.now) left (operands_view operands.now) (list_view making.old)).list.nodes)) }
    ensures limit { making.new.limit ≡ making.old.limit }
{
    for operand in operands {
        left = join_operand(making, held, left, operand, alloc)?;
    }
    Ok(left)
}

#[cycle(words)]
fn join_operand(
    making: &mut Making,
    held: &Held<'_>,
    left: usize,
    operand: &Operand,
    alloc: Global,
) -> Result<usize, NodeFault>
    ensures word { IfOk result (λ w. w ≡ (word_on (held_store held.now) left (operands_of (operand_view operand.now ∷ [])) (list_view making.old)).word) }
    ensures list { OnOk result (list_view making.new ≡ (word_on (held_store held.now) left (operands_of (operand_view operand.now ∷ [])) (list_view making.old)).list) }
    ensures too_many { IfErr result (λ e. e ≡ NodeFault.TooMany → IsOver making.old.limit (length (word_on (held_store held.now) left (operands_of (operand_view operand.now ∷ [])) (list_view making.old)).list.nodes)) }
    ensures limit { making.new.limit ≡ making.old.limit }
{
    let right = word_of(making, held, operand.kind, &operand.right, alloc)?;
    join(making, operand.operator, operand.kind, left, right)
}

// A standard function of expressions.
#[cycle(words)]
fn word_of_call(
    making: &mut Making,
    held: &Held<'_>,
    function: Function,
    kind: Elementary,
    arguments: &[TypedExpr],
    alloc: Global,
) -> Result<usize, NodeFault>
    ensures word { IfOk result (λ w. w ≡ (word_of (held_store held.now) kind (call_standard function kind (arguments_view arguments.now)) (list_view making.old)).word) }
    ensures list { OnOk result (list_view making.new ≡ (word_of (held_store held.now) kind (call_standard function kind (arguments_view arguments.now)) (list_view making.old)).list) }
    ensures too_many { IfErr result (λ e. e ≡ NodeFault.TooMany → IsOver making.old.limit (length (word_of (held_store held.now) kind (call_standard function kind (arguments_view arguments.now)) (list_view making.old)).list.nodes)) }
    ensures limit { making.new.limit ≡ making.old.limit }
{
    let first = first_operand_kind(function, kind);
    let words = words_of(making, held, first, kind, arguments, alloc)?;
    call_standard(making, function, kind, &words)
}

// The type of a function's first operand.
fn first_operand_kind(function: Function, kind: Elementary) -> Elementary
    ensures { result ≡ first_operand_kind function kind }
{
    match function {
        Function::Select => Elementary::Bool,
        _ => source_of(function, kind),
    }
}

// The words of expressions, the first of one type, and the others of another.
#[cycle(words)]
fn words_of(
    making: &mut Making,
    held: &Held<'_>,
    first: Elementary,
    others: Elementary,
    arguments: &[TypedExpr],
    alloc: Global,
) -> Result<Vec<usize>, NodeFault>
    ensures words { IfOk result (λ ws. ws.items ≡ (words_of (held_store held.now) first others (arguments_view arguments.now) (list_view making.old)).words) }
    ensures list { OnOk result (list_view making.new ≡ (words_of (held_store held.now) first others (arguments_view arguments.now) (list_view making.old)).list) }
    ensures too_many { IfErr result (λ e. e ≡ NodeFault.TooMany → IsOver making.old.limit (length (words_of (held_store held.now) first others (arguments_view arguments.now) (list_view making.old)).list.nodes)) }
    ensures limit { making.new.limit ≡ making.old.limit }
{
    let mut words = Vec::new(alloc);
    let mut kind = first;
    for argument in arguments {
        let word = word_of(making, held, kind, argument, alloc)?;
        let Ok(()) = words.push(word) else {
            return Err(NodeFault::Memory);
        };
        kind = others;
    }
    Ok(words)
}
