// Typed calls of standard functions.
ghost use Rattle.std.specs.Prelude.{◌≡◌, IfOk};
ghost use Rattle.naming.specs.Library.{standard_function};
ghost use Rattle.source_tree.specs.SyntaxView.{name_view, arguments_view};
ghost use Rattle.program_tree.specs.View.{expr_view, arguments_view as operands_view};
ghost use Rattle.typing.specs.Typed.{amount_in, function_of, typed_answer, typed_given, typed_result, typed_operands};

use crate::amounts::{amount_value, number_in};
use crate::calls::common_type;
use crate::typed_answers::type_answer;
use crate::typed_expressions::type_expr;
use naming::standard_function;
use plc_types::{DataType, Function, StandardFunction};
use program_tree::TypedExpr;
use source_tree::{Argument, Name};
use std::alloc::{AllocError, Global};
use synthesized_types::{Parameter, expected_at, parameter_of, result_of};
use typing::Scope;

// The amount of a shift: its second argument.
fn amount_in(arguments: &[Argument]) -> u8
    ensures { result ≡ amount_in (arguments_view arguments.now) }
{
    let Some((_operand, rest)) = arguments.split_first() else {
        return 0;
    };
    match rest.first() {
        None => 0,
        Some(argument) => amount_value(number_in(&argument.value)),
    }
}

// The function of a typed program; a conversion has the type that it converts from, and a shift its amount.
fn function_of(function: StandardFunction, arguments: &[Argument]) -> Function
    ensures { result ≡ function_of function (arguments_view arguments.now) }
{
    match function {
        StandardFunction::Conversion { from, .. } => Function::Convert(from),
        StandardFunction::Absolute => Function::Absolute,
        StandardFunction::Minimum => Function::Minimum,
        StandardFunction::Maximum => Function::Maximum,
        StandardFunction::Limit => Function::Limit,
        StandardFunction::Select => Function::Select,
        StandardFunction::Shift(shift) => Function::Shift(shift, amount_in(arguments)),
    }
}

/// The typed expression that a call stands for where a type is expected, or none.
#[cycle(type_expr)]
pub(crate) fn type_call<S: Scope>(
    alloc: Global,
    scope: &S,
    expected: Option<DataType>,
    name: &Name,
    arguments: &[Argument],
) -> Result<TypedExpr, AllocError>
    ensures { IfOk result (λ e. expr_view e ≡ typed_result (S.means scope.now) expected (standard_function (name_view name.now).text) ((S.means scope.now).signature (name_view name.now).text) (arguments_view arguments.now) (λ f t. typed_operands (S.means scope.now) f t 0 (arguments_view arguments.now)) (λ s. typed_given (S.means scope.now) s 0 (arguments_view arguments.now))) }
{
    let Some(function) = standard_function(name.text.as_str()) else {
        return type_answer(alloc, scope, name, arguments);
    };
    let kind = common_type(scope, expected, function, arguments);
    let operands = type_operands(alloc, scope, function, kind, arguments)?;
    Ok(TypedExpr::CallStandard(
        function_of(function, arguments),
        result_of(function).unwrap_or(kind).carrier(),
        operands,
    ))
}

// The operands among arguments.
#[cycle(type_expr)]
fn type_operands<S: Scope>(
    alloc: Global,
    scope: &S,
    function: StandardFunction,
    kind: DataType,
    arguments: &[Argument],
) -> Result<Vec<TypedExpr>, AllocError>
    ensures { IfOk result (λ operands. operands_view operands.items ≡ typed_operands (S.means scope.now) function kind 0 (arguments_view arguments.now)) }
{
    let mut operands = Vec::with_capacity(alloc, arguments.len())?;
    for (place, argument) in arguments.iter().enumerate() {
        let parameter = parameter_of(function, place);
        if parameter != Parameter::Amount {
            let expected = expected_at(parameter, kind);
            operands.push(type_expr(alloc, scope, expected, &argument.value)?)?;
        }
    }
    Ok(operands)
}
