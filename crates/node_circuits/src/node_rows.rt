// The rows of the table of nodes: the word of a node from the words of its operands.
ghost use Rattle.std.specs.Prelude.{[]};
ghost use Rattle.node_circuits.specs.NodeWords.{words_view, node_of};
ghost use Rattle.node_circuits.specs.Makes.{Makes};

use crate::operands::operand;
use crate::operators::{binary, unary};
use crate::rows::{conversion, range_test, shifted, zero_test};
use clause_core::Lit;
use gates::{Circuit, GateFault};
use node_core::Node;
use plc_types::{Elementary, Operator, Range, Shift, UnaryOperator, Value};
use std::alloc::Global;
use word_circuits::{abs, choose, constant, max, min, top};

// A constant of a type.
pub(crate) fn constant_word(
    alloc: Global,
    circuit: &mut Circuit,
    kind: Elementary,
    value: Value,
) -> Result<Vec<Lit>, GateFault>
    ensures { Makes (node_of [] (Node.Constant kind value) circuit.old) circuit.old circuit.new result }
{
    let Ok(word) = constant(alloc, kind.width() as usize, value) else {
        return Err(GateFault::Memory);
    };
    circuit.count();
    Ok(word)
}

// An operator of one operand.
pub(crate) fn unary_word(
    alloc: Global,
    circuit: &mut Circuit,
    words: &[Vec<Lit>],
    operator: UnaryOperator,
    kind: Elementary,
    number: usize,
) -> Result<Vec<Lit>, GateFault>
    ensures { Makes (node_of (words_view words.now) (Node.Unary operator kind number) circuit.old) circuit.old circuit.new result }
{
    let Ok(a) = operand(alloc, words, kind, number) else {
        return Err(GateFault::Memory);
    };
    unary(alloc, circuit, operator, a.as_slice())
}

// An operator of two operands.
pub(crate) fn binary_word(
    alloc: Global,
    circuit: &mut Circuit,
    words: &[Vec<Lit>],
    operator: Operator,
    kind: Elementary,
    left: usize,
    right: usize,
) -> Result<Vec<Lit>, GateFault>
    ensures { Makes (node_of (words_view words.now) (Node.Binary operator kind left right) circuit.old) circuit.old circuit.new result }
{
    let Ok(a) = operand(alloc, words, kind, left) else {
        return Err(GateFault::Memory);
    };
    let Ok(b) = operand(alloc, words, kind, right) else {
        return Err(GateFault::Memory);
    };
    let signed = kind.is_signed();
    binary(alloc, circuit, operator, signed, a.as_slice(), b.as_slice())
}

// A conversion from a type to another.
pub(crate) fn convert(
    alloc: Global,
    circuit: &mut Circuit,
    words: &[Vec<Lit>],
    from: Elementary,
    to: Elementary,
    number: usize,
) -> Result<Vec<Lit>, GateFault>
    ensures { Makes (node_of (words_view words.now) (Node.Convert from to number) circuit.old) circuit.old circuit.new result }
{
    let Ok(a) = operand(alloc, words, from, number) else {
        return Err(GateFault::Memory);
    };
    conversion(alloc, circuit, from, to, a.as_slice())
}

// An amount without its sign.
pub(crate) fn absolute_word(
    alloc: Global,
    circuit: &mut Circuit,
    words: &[Vec<Lit>],
    kind: Elementary,
    number: usize,
) -> Result<Vec<Lit>, GateFault>
    ensures { Makes (node_of (words_view words.now) (Node.Absolute kind number) circuit.old) circuit.old circuit.new result }
{
    let Ok(a) = operand(alloc, words, kind, number) else {
        return Err(GateFault::Memory);
    };
    abs(alloc, circuit, kind.is_signed(), a.as_slice())
}

// The lesser of two operands.
pub(crate) fn lesser(
    alloc: Global,
    circuit: &mut Circuit,
    words: &[Vec<Lit>],
    kind: Elementary,
    left: usize,
    right: usize,
) -> Result<Vec<Lit>, GateFault>
    ensures { Makes (node_of (words_view words.now) (Node.Minimum kind left right) circuit.old) circuit.old circuit.new result }
{
    let Ok(a) = operand(alloc, words, kind, left) else {
        return Err(GateFault::Memory);
    };
    let Ok(b) = operand(alloc, words, kind, right) else {
        return Err(GateFault::Memory);
    };
    min(alloc, circuit, kind.is_signed(), a.as_slice(), b.as_slice())
}

// The greater of two operands.
pub(crate) fn greater(
    alloc: Global,
    circuit: &mut Circuit,
    words: &[Vec<Lit>],
    kind: Elementary,
    left: usize,
    right: usize,
) -> Result<Vec<Lit>, GateFault>
    ensures { Makes (node_of (words_view words.now) (Node.Maximum kind left right) circuit.old) circuit.old circuit.new result }
{
    let Ok(a) = operand(alloc, words, kind, left) else {
        return Err(GateFault::Memory);
    };
    let Ok(b) = operand(alloc, words, kind, right) else {
        return Err(GateFault::Memory);
    };
    max(alloc, circuit, kind.is_signed(), a.as_slice(), b.as_slice())
}

// A shift or a rotation by an amount that is known, which takes no gates.
pub(crate) fn shift_word(
    alloc: Global,
    circuit: &mut Circuit,
    words: &[Vec<Lit>],
    shift: Shift,
    amount: u8,
    kind: Elementary,
    number: usize,
) -> Result<Vec<Lit>, GateFault>
    ensures { Makes (node_of (words_view words.now) (Node.Shift shift amount kind number) circuit.old) circuit.old circuit.new result }
{
    let Ok(a) = operand(alloc, words, kind, number) else {
        return Err(GateFault::Memory);
    };
    let Ok(word) = shifted(alloc, shift, amount as usize, a.as_slice()) else {
        return Err(GateFault::Memory);
    };
    circuit.count();
    Ok(word)
}

// Whether an operand is zero.
pub(crate) fn zero_word(
    alloc: Global,
    circuit: &mut Circuit,
    words: &[Vec<Lit>],
    kind: Elementary,
    number: usize,
) -> Result<Vec<Lit>, GateFault>
    ensures { Makes (node_of (words_view words.now) (Node.IsZero kind number) circuit.old) circuit.old circuit.new result }
{
    let Ok(a) = operand(alloc, words, kind, number) else {
        return Err(GateFault::Memory);
    };
    zero_test(alloc, circuit, a.as_slice())
}

// Whether an operand lies outside of a range.
pub(crate) fn outside_word(
    alloc: Global,
    circuit: &mut Circuit,
    words: &[Vec<Lit>],
    kind: Elementary,
    range: Range,
    number: usize,
) -> Result<Vec<Lit>, GateFault>
    ensures { Makes (node_of (words_view words.now) (Node.Outside kind range number) circuit.old) circuit.old circuit.new result }
{
    let Ok(a) = operand(alloc, words, kind, number) else {
        return Err(GateFault::Memory);
    };
    range_test(alloc, circuit, kind.is_signed(), range, a.as_slice())
}

// The one operand where a condition holds, and the other where it does not.
pub(crate) fn mux_word(
    alloc: Global,
    circuit: &mut Circuit,
    words: &[Vec<Lit>],
    kind: Elementary,
    condition: usize,
    on: usize,
    off: usize,
) -> Result<Vec<Lit>, GateFault>
    ensures { Makes (node_of (words_view words.now) (Node.Mux kind condition on off) circuit.old) circuit.old circuit.new result }
{
    let Ok(c) = operand(alloc, words, Elementary::Bool, condition) else {
        return Err(GateFault::Memory);
    };
    let Ok(a) = operand(alloc, words, kind, on) else {
        return Err(GateFault::Memory);
    };
    let Ok(b) = operand(alloc, words, kind, off) else {
        return Err(GateFault::Memory);
    };
    let c = top(c.as_slice());
    choose(alloc, circuit, c, a.as_slice(), b.as_slice())
}
