// Judging calls of standard functions (IEC 61131-3, 2.5.1.5).
ghost use Rattle.std.specs.Prelude.{◌≡◌, IfOk};
ghost use Rattle.naming.specs.Library.{standard_function};
ghost use Rattle.source_tree.specs.SyntaxView.{name_view, tree_view, arguments_view};
ghost use Rattle.typing.specs.Typing.{common_type, synthesized_of_call, synthesized_of_arguments, takes_count, count_of};
ghost use Rattle.rules.specs.Judgements.{ok};
ghost use Rattle.typing.specs.Judged.{fit_from, judged_call, judged_arguments, judged_alone, judged_given};
ghost use Rattle.rules.specs.Outcomes.{outcome_of};
ghost use Rattle.typing.specs.Outcomes.{amount_outcome, arguments_outcome, alone_outcome};
ghost use Rattle.expr_types.specs.Fits.{synthesized_fits};
ghost use Rattle.synthesized_types.specs.Parameters.{parameter_view};

use crate::amounts::is_amount;
use crate::answers::judge_user_call;
use crate::expressions::judge_and_synthesize;
use crate::judged::{JudgedArguments, JudgedExpr};
use naming::standard_function;
use plc_types::{DataType, StandardFunction};
use rules::{Outcome, Rule};
use source_tree::{Argument, Expr, Name};
use std::alloc::{AllocError, Global};
use synthesized_types::{
    Parameter, expected_at, or_dint, parameter_of, place_of, result_of, synthesized_of_arguments,
    takes_count, takes_operands,
};
use typing::Scope;

/// The one type of a call's operands.
pub fn common_type<S: Scope>(
    scope: &S,
    expected: Option<DataType>,
    function: StandardFunction,
    arguments: &[Argument],
) -> DataType
    ensures { result ≡ common_type (S.means scope.now) expected function (arguments_view arguments.now) }
{
    or_dint(synthesized_of_arguments(scope, function, arguments).or(expected))
}

// Whether an argument that was judged is of the type that is expected where the operands are of a type.
fn is_fitting(parameter: Parameter, kind: DataType, judged: JudgedExpr) -> bool
    ensures { result ≡ synthesized_fits (parameter_view parameter) kind judged.synthesized }
{
    match parameter {
        Parameter::Fixed(own) => {
            let own = DataType::Elementary(own);
            judged.kind(Some(own)).is_same(own)
        }
        Parameter::Common => judged.kind(Some(kind)).is_same(kind),
        Parameter::Amount => true,
    }
}

// Whether a function takes as many arguments as there are.
#[tactic(auto, using(crate::proofs::ArgumentCounts::count_of_arguments))]
fn takes_all(function: StandardFunction, arguments: &[Argument]) -> bool
    ensures { result ≡ takes_count function (count_of (arguments_view arguments.now)) }
{
    takes_count(function, arguments.len())
}

// The amount of a shift is a number from 0 to 64.
fn judge_amount<S: Scope>(
    scope: &S,
    parameter: Parameter,
    argument: &Expr,
    judged: Outcome,
) -> Outcome
    ensures { result ≡ amount_outcome (S.means scope.now) (parameter_view parameter) (tree_view argument.now) judged }
{
    match parameter {
        Parameter::Fixed(_) | Parameter::Common => judged,
        Parameter::Amount => {
            let fits = is_amount(scope, argument);
            judged.require(fits, Rule::OutsideType, place_of(argument))
        }
    }
}

/// Whether a call is whole where a type is expected, or none, and what it breaks first; and its synthesized type.
#[cycle(judge_expr)]
pub(crate) fn judge_call<S: Scope>(
    alloc: Global,
    scope: &S,
    expected: Option<DataType>,
    name: &Name,
    arguments: &[Argument],
) -> Result<JudgedExpr, AllocError>
    ensures outcome { IfOk result (λ j. j.outcome ≡ outcome_of (judged_call (S.means scope.now) expected (name_view name.now).at (standard_function (name_view name.now).text) ((S.means scope.now).signature (name_view name.now).text) (arguments_view arguments.now) (judged_alone (S.means scope.now) (arguments_view arguments.now)) (λ f t. judged_arguments (S.means scope.now) f t 0 (arguments_view arguments.now)) (λ s. judged_given (S.means scope.now) s 0 (arguments_view arguments.now)))) }
    ensures synthesized { IfOk result (λ j. j.synthesized ≡ synthesized_of_call (standard_function (name_view name.now).text) ((S.means scope.now).signature (name_view name.now).text) (λ f. synthesized_of_arguments (S.means scope.now) f 0 (arguments_view arguments.now))) }
{
    let Some(function) = standard_function(name.text.as_str()) else {
        return judge_user_call(alloc, scope, name, arguments);
    };
    let of_operands = synthesized_of_arguments(scope, function, arguments);
    let synthesized = result_of(function).or(of_operands);
    if !takes_all(function, arguments) {
        let alone = judge_alone(alloc, scope, arguments)?;
        let outcome = alone.require(false, Rule::ArgumentCount, name.at);
        return Ok(JudgedExpr {
            outcome,
            synthesized,
        });
    }
    let kind = or_dint(of_operands.or(expected));
    let judged = judge_arguments(alloc, scope, function, kind, arguments)?;
    let fits = takes_operands(function, kind) && judged.fit;
    let outcome = judged.outcome.require(fits, Rule::OperandType, name.at);
    Ok(JudgedExpr {
        outcome,
        synthesized,
    })
}

// Arguments where the operands are of a type.
#[cycle(judge_expr)]
fn judge_arguments<S: Scope>(
    alloc: Global,
    scope: &S,
    function: StandardFunction,
    kind: DataType,
    arguments: &[Argument],
) -> Result<JudgedArguments, AllocError>
    ensures outcome { IfOk result (λ j. j.outcome ≡ arguments_outcome (S.means scope.now) function kind 0 (outcome_of ok) (arguments_view arguments.now)) }
    ensures fit { IfOk result (λ j. j.fit ≡ fit_from (S.means scope.now) function kind 0 (arguments_view arguments.now)) }
{
    let mut outcome = Outcome::ok();
    let mut fit = true;
    for (place, argument) in arguments.iter().enumerate() {
        let parameter = parameter_of(function, place);
        let value = judge_and_synthesize(
            alloc,
            scope,
            expected_at(parameter, kind),
            &argument.value,
        )?;
        let judged = judge_amount(scope, parameter, &argument.value, value.outcome);
        let fits = is_fitting(parameter, kind, value);
        outcome = outcome.and(judged);
        fit = fit && fits;
    }
    Ok(JudgedArguments { outcome, fit })
}

// Arguments each alone, where a function does not take so many.
#[cycle(judge_expr)]
fn judge_alone<S: Scope>(
    alloc: Global,
    scope: &S,
    arguments: &[Argument],
) -> Result<Outcome, AllocError>
    ensures { IfOk result (λ o. o ≡ alone_outcome (S.means scope.now) (outcome_of ok) (arguments_view arguments.now)) }
{
    let mut judged = Outcome::ok();
    for argument in arguments {
        let value = judge_and_synthesize(alloc, scope, None, &argument.value)?;
        judged = judged.and(value.outcome);
    }
    Ok(judged)
}
