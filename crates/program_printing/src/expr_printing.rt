// Expressions as texts: a cell by its name, or by its place where it has none, and an operator with the type of its operands.
use plc_types::{Elementary, Function, Operator, Shift, UnaryOperator};
use program_tree::{Operand, TypedExpr};
use std::alloc::{AllocError, Global};

/// Adds an expression to a text. The names are those of the first cells.
#[cycle(print_expr)]
pub fn print_expr(
    expr: &TypedExpr,
    names: &[String],
    alloc: Global,
    text: &mut String,
) -> Result<(), AllocError> {
    match expr {
        TypedExpr::Number(value) => text.push_str(format!(in alloc; "{value}")?.as_str()),
        TypedExpr::Cell(place) => print_cell(*place, names, alloc, text),
        TypedExpr::Unary(operator, kind, inner) => {
            text.push_str(unary_name(*operator))?;
            text.push_str(":")?;
            text.push_str(kind.name())?;
            text.push_str(" ")?;
            print_expr(inner, names, alloc, text)
        }
        TypedExpr::Chain(first, operands) => {
            for _ in operands {
                text.push_str("(")?;
            }
            print_expr(first, names, alloc, text)?;
            print_operands(operands, names, alloc, text)
        }
        TypedExpr::CallStandard(function, kind, operands) => {
            print_function(*function, *kind, alloc, text)?;
            print_expressions(operands, names, alloc, text)?;
            text.push_str(")")
        }
        TypedExpr::CallFunction(number, inputs) => {
            text.push_str(format!(in alloc; "call {number}(")?.as_str())?;
            print_expressions(inputs, names, alloc, text)?;
            text.push_str(")")
        }
    }
}

fn print_cell(
    place: usize,
    names: &[String],
    alloc: Global,
    text: &mut String,
) -> Result<(), AllocError> {
    match names.get(place) {
        Some(name) => text.push_str(name.as_str()),
        None => text.push_str(format!(in alloc; "#{place}")?.as_str()),
    }
}

#[cycle(print_expr)]
fn print_operands(
    operands: &[Operand],
    names: &[String],
    alloc: Global,
    text: &mut String,
) -> Result<(), AllocError> {
    for operand in operands {
        text.push_str(" ")?;
        text.push_str(operator_name(operand.operator))?;
        text.push_str(":")?;
        text.push_str(operand.kind.name())?;
        text.push_str(" ")?;
        print_expr(&operand.right, names, alloc, text)?;
        text.push_str(")")?;
    }
    Ok(())
}

#[cycle(print_expr)]
fn print_expressions(
    list: &[TypedExpr],
    names: &[String],
    alloc: Global,
    text: &mut String,
) -> Result<(), AllocError> {
    for (i, expr) in list.iter().enumerate() {
        if i > 0 {
            text.push_str(", ")?;
        }
        print_expr(expr, names, alloc, text)?;
    }
    Ok(())
}

// The name of a standard function with its type, up to the parenthesis. A shift has its amount.
fn print_function(
    function: Function,
    kind: Elementary,
    alloc: Global,
    text: &mut String,
) -> Result<(), AllocError> {
    match function {
        Function::Convert(_) => text.push_str("CONVERT:")?,
        Function::Absolute => text.push_str("ABS:")?,
        Function::Minimum => text.push_str("MIN:")?,
        Function::Maximum => text.push_str("MAX:")?,
        Function::Limit => text.push_str("LIMIT:")?,
        Function::Select => text.push_str("SEL:")?,
        Function::Shift(shift, amount) => {
            text.push_str(shift_name(shift))?;
            text.push_str(format!(in alloc; " {amount}:")?.as_str())?;
        }
    }
    text.push_str(kind.name())?;
    text.push_str("(")
}

/// The name of an operator of one operand.
pub fn unary_name(operator: UnaryOperator) -> &'static str {
    match operator {
        UnaryOperator::Minus => "-",
        UnaryOperator::Not => "NOT",
    }
}

/// The name of a shift or rotation.
pub fn shift_name(shift: Shift) -> &'static str {
    match shift {
        Shift::Left => "SHL",
        Shift::Right => "SHR",
        Shift::RotateLeft => "ROL",
        Shift::RotateRight => "ROR",
    }
}

/// The name of an operator of two operands.
pub fn operator_name(operator: Operator) -> &'static str {
    match operator {
        Operator::Or => "OR",
        Operator::Xor => "XOR",
        Operator::And => "AND",
        Operator::Equal => "=",
        Operator::NotEqual => "<>",
        Operator::Less => "<",
        Operator::Greater => ">",
        Operator::LessEqual => "<=",
        Operator::GreaterEqual => ">=",
        Operator::Plus => "+",
        Operator::Minus => "-",
        Operator::Times => "*",
        Operator::Divide => "/",
        Operator::Mod => "MOD",
    }
}
