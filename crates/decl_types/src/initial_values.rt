// The values that variables begin with.
ghost use Rattle.std.specs.Prelude.{◌≡◌, option_map, Some, Bool, false, if◌then◌else◌, IfOk};
ghost use Rattle.source_tree.specs.SyntaxView.{tree_view};
ghost use Rattle.plc_types.specs.declared.data_type.DataType.TheVariants.{Unknown};
ghost use Rattle.plc_types.specs.Types.{in_range};
ghost use Rattle.decl_types.specs.Bodies.{file_of};
ghost use Rattle.rules.specs.Outcomes.{outcome_of};
ghost use Rattle.typing.specs.Domains.{values_scope};
ghost use Rattle.typing.specs.Typed.{constant_of};
ghost use Rattle.typing.specs.Variables.{judged_initial, judged_value, given_value, start_of};

use crate::file_types::FileTypes;
use expr_types::{constant_of, judge_and_synthesize, place_of};
use plc_types::{Range, Value};
use rules::{Outcome, Rule};
use source_tree::Expr;
use std::alloc::{AllocError, Global};
use typing::Domain;

// Whether a value is in a range.
fn is_in(value: Value, range: Range) -> bool
    ensures { result ≡ in_range value range }
{
    range.low <= value && value <= range.high
}

// An initial value that is written is of its variable's type, and in its range.
#[tactic(auto, using(typing_laws::proofs::Judging::judging))]
fn judge_given(
    alloc: Global,
    file: &FileTypes<'_>,
    domain: Domain,
    at: usize,
    value: &Expr,
    given: Value,
) -> Result<Outcome, AllocError>
    requires { given ≡ constant_of (values_scope (file_of file.now)) domain.kind (tree_view value.now) }
    ensures { IfOk result (λ o. o ≡ outcome_of (judged_initial (file_of file.now) domain at (Some (tree_view value.now)))) }
{
    let kind = domain.kind;
    let judged = judge_and_synthesize(alloc, file, Some(kind), value)?;
    let fits = judged.kind(Some(kind)).is_same(kind);
    let of_type = judged.outcome.require(fits, Rule::ValueType, at);
    let within = is_in(given, domain.range);
    Ok(of_type.require(within, Rule::OutsideType, place_of(value)))
}

// What an initial value breaks, where one is written, and that value, or that of the type.
fn judge_initial(
    alloc: Global,
    file: &FileTypes<'_>,
    domain: Domain,
    at: usize,
    initial: Option<&Expr>,
) -> Result<(Outcome, Value), AllocError>
    ensures judged { IfOk result (λ r. r.0 ≡ outcome_of (judged_initial (file_of file.now) domain at (option_map (λ e. tree_view e.now) initial.entry))) }
    ensures value { IfOk result (λ r. r.1 ≡ given_value (file_of file.now) domain (option_map (λ e. tree_view e.now) initial.entry)) }
{
    match initial {
        None => Ok((Outcome::ok(), domain.start)),
        Some(value) => {
            let given = constant_of(alloc, file, domain.kind, value)?;
            let judged = judge_given(alloc, file, domain, at, value, given)?;
            Ok((judged, given))
        }
    }
}

// The value that is written, where it breaks no rule, or that of the type.
fn start_with(whole: bool, given: Value, domain: Domain) -> Value
    ensures { result ≡ (if whole then given else domain.start) }
{
    if whole { given } else { domain.start }
}

/// What an initial value breaks, where that of a type that breaks a rule, or of an instance, is not looked at; and the value that a
/// variable of a domain begins with: the initial value, or that of the type where none is written or where it breaks a rule.
#[tactic(auto, unfolding(rules::specs::Outcomes::outcome_of))]
pub(crate) fn judged_initial_value(
    alloc: Global,
    file: &FileTypes<'_>,
    domain: Domain,
    at: usize,
    initial: Option<&Expr>,
) -> Result<(Outcome, Value), AllocError>
    requires { domain.whole ≡ false → domain.kind ≡ Unknown }
    ensures judged { IfOk result (λ r. r.0 ≡ outcome_of (judged_value (file_of file.now) domain at (option_map (λ e. tree_view e.now) initial.entry))) }
    ensures start { IfOk result (λ r. r.1 ≡ start_of (file_of file.now) domain at (option_map (λ e. tree_view e.now) initial.entry)) }
{
    if !domain.whole {
        return Ok((Outcome::suppressed(), domain.start));
    }
    let (judged, given) = judge_initial(alloc, file, domain, at, initial)?;
    let start = start_with(judged.whole, given, domain);
    Ok((judged, start))
}
