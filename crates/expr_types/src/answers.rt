// Judging calls of FUNCTIONs (IEC 61131-3, 2.5.1).
ghost use Rattle.std.specs.Prelude.{◌≡◌, ◌<◌, ◌^◌, Option, Some, true, slice_set, IfOk, option_map};
ghost use Rattle.std.specs.List.{list_all};
ghost use Rattle.source_tree.specs.SyntaxView.{name_view, arguments_view};
ghost use Rattle.rules.specs.Judgements.{ok};
ghost use Rattle.typing.specs.Judged.{place_for, places_for, has_all_below, gives_all, expected_by, judged_port, fit_placed, judged_given, judged_user_call};
ghost use Rattle.rules.specs.Outcomes.{outcome_of};
ghost use Rattle.typing.specs.Typing.{synthesized_of_answer};
ghost use Rattle.expr_types.specs.Fits.{synthesized_fits_port, fits_unless_named};
ghost use Rattle.typing.specs.Outcomes.{named_outcome, given_outcome, answer_outcome};

use crate::expressions::judge_and_synthesize;
use crate::judged::{JudgedArguments, JudgedExpr};
use plc_types::DataType;
use rules::{Outcome, Rule};
use source_tree::{Argument, Name};
use std::alloc::{AllocError, Global};
use synthesized_types::port_type;
use typing::{Port, Scope, Signature};

/// The place of the input that an argument at a place is for.
pub fn place_for<S: Scope>(
    scope: &S,
    signature: Signature,
    place: usize,
    name: &Option<Name>,
) -> usize
    ensures { result ≡ place_for (S.means scope.now) signature place (option_map name_view name.now) }
{
    match name {
        None => place,
        Some(name) => scope
            .input(signature.function, name)
            .unwrap_or(signature.count),
    }
}

// The places of the inputs that arguments are for.
fn places_for<S: Scope>(
    alloc: Global,
    scope: &S,
    signature: Signature,
    arguments: &[Argument],
) -> Result<Vec<usize>, AllocError>
    ensures { IfOk result (λ places. places.items ≡ places_for (S.means scope.now) signature 0 (arguments_view arguments.now)) }
{
    let mut places = Vec::new(alloc);
    for (place, argument) in arguments.iter().enumerate() {
        places.push(place_for(scope, signature, place, &argument.name))?;
    }
    Ok(places)
}

// Marks a place, where it is one of those that are marked.
fn mark(marks: &mut [bool], place: usize)
    ensures { marks.new ≡ slice_set marks.old place true }
{
    if place < marks.len() {
        marks[place] = true;
    }
}

// Whether all places are marked.
fn are_all(marks: &[bool]) -> bool
    ensures { result ≡ list_all (λ is_marked. is_marked) marks.now }
{
    for is_marked in marks {
        if !*is_marked {
            return false;
        }
    }
    true
}

// Whether all numbers below one are among some numbers.
fn has_all_below(alloc: Global, count: usize, numbers: &[usize]) -> Result<bool, AllocError>
    ensures { IfOk result (λ all. all ≡ has_all_below count numbers.now) }
{
    let mut marks = vec![in alloc; false; count]?;
    for number in numbers {
        mark(&mut marks, *number);
    }
    Ok(are_all(&marks))
}

// Whether there are as many arguments as inputs, and one for each.
#[tactic(auto, using(crate::proofs::ArgumentCounts::count_of_arguments))]
fn gives_all<S: Scope>(
    alloc: Global,
    scope: &S,
    signature: Signature,
    arguments: &[Argument],
) -> Result<bool, AllocError>
    ensures { IfOk result (λ all. all ≡ gives_all (S.means scope.now) signature (arguments_view arguments.now)) }
{
    if arguments.len() != signature.count {
        return Ok(false);
    }
    let places = places_for(alloc, scope, signature, arguments)?;
    has_all_below(alloc, signature.count, &places)
}

/// The type that is expected of an argument for an input; where there is no such input, none is.
pub fn expected_by(port: Option<Port>) -> Option<DataType>
    ensures { result ≡ expected_by port }
{
    match port {
        None => None,
        Some(port) => Some(port_type(port)),
    }
}

// An argument for an input whose declaration breaks a rule says nothing.
fn judge_port(port: Option<Port>) -> Outcome
    ensures { result ≡ outcome_of (judged_port port) }
{
    match port {
        Some(port) if !port.whole => Outcome::suppressed(),
        _ => Outcome::ok(),
    }
}

// Whether an argument that was judged is of its input's type.
fn fits_port(port: Option<Port>, judged: JudgedExpr) -> bool
    ensures { result ≡ synthesized_fits_port port judged.synthesized }
{
    match port {
        None => true,
        Some(port) => {
            let kind = port_type(port);
            judged.kind(Some(kind)).is_same(kind)
        }
    }
}

// An argument by name is of its input's type.
fn judge_named(name: &Option<Name>, fits: bool, judged: Outcome) -> Outcome
    ensures { result ≡ named_outcome (option_map name_view name.now) fits judged }
{
    match name {
        None => judged,
        Some(name) => judged.require(fits, Rule::ValueType, name.at),
    }
}

// Whether an argument, where it has no name, is of its input's type.
fn fits_unless_named(name: &Option<Name>, fits: bool) -> bool
    ensures { result ≡ fits_unless_named (option_map name_view name.now) fits }
{
    match name {
        None => fits,
        Some(_) => true,
    }
}

// Arguments, each where the type of its input is expected.
#[cycle(judge_expr)]
fn judge_given<S: Scope>(
    alloc: Global,
    scope: &S,
    signature: Signature,
    arguments: &[Argument],
) -> Result<JudgedArguments, AllocError>
    ensures outcome { IfOk result (λ j. j.outcome ≡ given_outcome (S.means scope.now) signature 0 (outcome_of ok) (arguments_view arguments.now)) }
    ensures fit { IfOk result (λ j. j.fit ≡ fit_placed (S.means scope.now) signature 0 (arguments_view arguments.now)) }
{
    let mut outcome = Outcome::ok();
    let mut fit = true;
    for (place, argument) in arguments.iter().enumerate() {
        let to = place_for(scope, signature, place, &argument.name);
        let port = scope.port(signature.function, to);
        let value = judge_and_synthesize(alloc, scope, expected_by(port), &argument.value)?;
        let fits = fits_port(port, value);
        let parts = value.outcome.and(judge_port(port));
        let placed = fits_unless_named(&argument.name, fits);
        outcome = outcome.and(judge_named(&argument.name, fits, parts));
        fit = fit && placed;
    }
    Ok(JudgedArguments { outcome, fit })
}

// A call of a FUNCTION whose arguments were judged.
#[tactic(auto, using(typing_laws::proofs::Judging::judging))]
fn judge_answer<S: Scope>(
    alloc: Global,
    scope: &S,
    at: usize,
    signature: Signature,
    arguments: &[Argument],
    judged: JudgedArguments,
) -> Result<Outcome, AllocError>
    requires { judged.fit ≡ fit_placed (S.means scope.now) signature 0 (arguments_view arguments.now) }
    ensures { IfOk result (λ o. o ≡ answer_outcome (S.means scope.now) at signature (arguments_view arguments.now) judged.outcome) }
{
    let all = gives_all(alloc, scope, signature, arguments)?;
    let counted = judged.outcome.require(all, Rule::ArgumentCount, at);
    let fitting = counted.require(judged.fit, Rule::OperandType, at);
    Ok(fitting.and(judge_port(Some(signature.result))))
}

/// Whether a call of what may be a FUNCTION is whole, and what it breaks first; and its synthesized type.
#[cycle(judge_expr)]
pub(crate) fn judge_user_call<S: Scope>(
    alloc: Global,
    scope: &S,
    name: &Name,
    arguments: &[Argument],
) -> Result<JudgedExpr, AllocError>
    ensures outcome { IfOk result (λ j. j.outcome ≡ outcome_of (judged_user_call (S.means scope.now) (name_view name.now).at ((S.means scope.now).signature (name_view name.now).text) (arguments_view arguments.now) (λ s. judged_given (S.means scope.now) s 0 (arguments_view arguments.now)))) }
    ensures synthesized { IfOk result (λ j. j.synthesized ≡ synthesized_of_answer ((S.means scope.now).signature (name_view name.now).text)) }
{
    let Some(signature) = scope.signature(name) else {
        return Ok(JudgedExpr {
            outcome: Outcome::suppressed(),
            synthesized: None,
        });
    };
    let parts = judge_given(alloc, scope, signature, arguments)?;
    let outcome = judge_answer(alloc, scope, name.at, signature, arguments, parts)?;
    Ok(JudgedExpr {
        outcome,
        synthesized: Some(port_type(signature.result)),
    })
}
