ghost use Rattle.std.specs.Prelude.{◌≡◌, length};
ghost use Rattle.gates.specs.Literals.{false_lit};
ghost use Rattle.word_circuits.specs.Sums.{add_of, sub_of, neg_of};
ghost use Rattle.word_circuits.specs.Comparisons.{comparison_of};
ghost use Rattle.node_circuits.specs.Rows.{one_bit, sum_alone, unary_of, binary_of};
ghost use Rattle.node_circuits.specs.Makes.{Makes};

use crate::operands::one_bit;
use clause_core::Lit;
use gates::{Circuit, FALSE, GateFault};
use plc_types::{Operator, UnaryOperator};
use std::alloc::Global;
use word_circuits::{
    BitOperator, Comparison, Part, add, bitwise, compare, division, mul, neg, not, sub,
};

// The negative of a word.
fn negative(alloc: Global, circuit: &mut Circuit, a: &[Lit]) -> Result<Vec<Lit>, GateFault>
    ensures { Makes (sum_alone (neg_of a.now circuit.old)) circuit.old circuit.new result }
{
    let sum = neg(alloc, circuit, a)?;
    Ok(sum.word)
}

// A word with each bit negated, which takes no gates.
fn complement(alloc: Global, circuit: &mut Circuit, a: &[Lit]) -> Result<Vec<Lit>, GateFault>
    ensures { Makes (unary_of UnaryOperator.Not a.now circuit.old) circuit.old circuit.new result }
{
    let Ok(word) = not(alloc, a) else {
        return Err(GateFault::Memory);
    };
    circuit.count();
    Ok(word)
}

// A unary operator on a word.
pub(crate) fn unary(
    alloc: Global,
    circuit: &mut Circuit,
    operator: UnaryOperator,
    a: &[Lit],
) -> Result<Vec<Lit>, GateFault>
    ensures { Makes (unary_of operator a.now circuit.old) circuit.old circuit.new result }
{
    match operator {
        UnaryOperator::Minus => negative(alloc, circuit, a),
        UnaryOperator::Not => complement(alloc, circuit, a),
    }
}

// The sum of two words.
fn sum(alloc: Global, circuit: &mut Circuit, a: &[Lit], b: &[Lit]) -> Result<Vec<Lit>, GateFault>
    requires { length a.now ≡ length b.now }
    ensures { Makes (sum_alone (add_of a.now b.now false_lit circuit.old)) circuit.old circuit.new result }
{
    let sum = add(alloc, circuit, a, b, FALSE)?;
    Ok(sum.word)
}

// The difference of two words.
fn difference(
    alloc: Global,
    circuit: &mut Circuit,
    a: &[Lit],
    b: &[Lit],
) -> Result<Vec<Lit>, GateFault>
    requires { length a.now ≡ length b.now }
    ensures { Makes (sum_alone (sub_of a.now b.now circuit.old)) circuit.old circuit.new result }
{
    let sum = sub(alloc, circuit, a, b)?;
    Ok(sum.word)
}

// A comparison of two words as a word of one bit.
fn comparison(
    alloc: Global,
    circuit: &mut Circuit,
    comparison: Comparison,
    signed: bool,
    a: &[Lit],
    b: &[Lit],
) -> Result<Vec<Lit>, GateFault>
    requires { length a.now ≡ length b.now }
    ensures { Makes (one_bit (comparison_of comparison signed a.now b.now circuit.old)) circuit.old circuit.new result }
{
    let bit = compare(alloc, circuit, comparison, signed, a, b)?;
    let Ok(word) = one_bit(alloc, bit) else {
        return Err(GateFault::Memory);
    };
    Ok(word)
}

// A binary operator on two words of a signed or an unsigned type.
pub(crate) fn binary(
    alloc: Global,
    circuit: &mut Circuit,
    operator: Operator,
    signed: bool,
    a: &[Lit],
    b: &[Lit],
) -> Result<Vec<Lit>, GateFault>
    requires { length a.now ≡ length b.now }
    ensures { Makes (binary_of operator signed a.now b.now circuit.old) circuit.old circuit.new result }
{
    match operator {
        Operator::Or => bitwise(alloc, circuit, BitOperator::Or, a, b),
        Operator::Xor => bitwise(alloc, circuit, BitOperator::Xor, a, b),
        Operator::And => bitwise(alloc, circuit, BitOperator::And, a, b),
        Operator::Equal => comparison(alloc, circuit, Comparison::Equal, signed, a, b),
        Operator::NotEqual => comparison(alloc, circuit, Comparison::NotEqual, signed, a, b),
        Operator::Less => comparison(alloc, circuit, Comparison::Less, signed, a, b),
        Operator::Greater => comparison(alloc, circuit, Comparison::Greater, signed, a, b),
        Operator::LessEqual => comparison(alloc, circuit, Comparison::LessOrEqual, signed, a, b),
        Operator::GreaterEqual => {
            comparison(alloc, circuit, Comparison::GreaterOrEqual, signed, a, b)
        }
        Operator::Plus => sum(alloc, circuit, a, b),
        Operator::Minus => difference(alloc, circuit, a, b),
        Operator::Times => mul(alloc, circuit, a, b),
        Operator::Divide => division(alloc, circuit, Part::Quotient, signed, a, b),
        Operator::Mod => division(alloc, circuit, Part::Remainder, signed, a, b),
    }
}
