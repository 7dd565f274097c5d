// The labels of a CASE.
ghost use Rattle.std.specs.Prelude.{◌≡◌, ◌&&◌, [], map, not, int_le, IfOk, List, Some};
ghost use Rattle.source_tree.specs.SyntaxView.{tree_view, initial_view, label_view, labels_view, entries_view};
ghost use Rattle.typing.specs.Labels.{label_range, labelled_by, typed_label, judged_high, is_of_type, high_is_of_type, overlaps, judged_label, judged_labels, seen_with, seen_behind};
ghost use Rattle.rules.specs.Outcomes.{outcome_of};
ghost use Rattle.typing.specs.Outcomes.{labels_outcome, all_labels};
ghost use Rattle.rules.specs.Judgements.{and};
ghost use Rattle.typing.specs.Judged.{judged, judged_meaning};
ghost use Rattle.typing.specs.Typed.{read_of, meaning_read, value_of_number, constant_of};
ghost use Rattle.typing.specs.Typing.{kind_at, or_dint, or_else};
ghost use Rattle.plc_types.specs.DataTypes.{is_same_type};
ghost use Rattle.stmt_types.specs.SeenLabels.{Sees};

use crate::seen_labels::Seen;
use expr_types::{constant_of, judge_and_synthesize, judge_meaning, kind_at, or_dint, place_of};
use plc_types::{DataType, Range, Value};
use program_tree::TypedLabel;
use rules::{Outcome, Rule};
use source_tree::{Entry, Expr, Label};
use std::alloc::{AllocError, Global};
use typing::{Meaning, Place, Scope};

// What judging a constant finds: its value, what it breaks, and whether it is of the type that is expected.
#[derive(Clone, Copy)]
struct Constant {
    value: Value,
    judged: Outcome,
    fits: bool,
}

// The same of a label: the values that it has, what its constants break, and whether they are of the selector's type.
#[derive(Clone, Copy)]
struct Constants {
    range: Range,
    judged: Outcome,
    fit: bool,
}

/// The values of a label: one, or all from one to another.
pub fn label_range<S: Scope>(
    alloc: Global,
    scope: &S,
    kind: DataType,
    label: &Label,
) -> Result<Range, AllocError>
    ensures { IfOk result (λ range. range ≡ label_range (S.means scope.now) kind (label_view label.now)) }
{
    let low = constant_of(alloc, scope, kind, &label.low)?;
    match &label.high {
        None => Ok(Range { low, high: low }),
        Some(high) => {
            let high = constant_of(alloc, scope, kind, high)?;
            Ok(Range { low, high })
        }
    }
}

/// Labels as typed programs have them.
pub(crate) fn typed_labels<S: Scope>(
    alloc: Global,
    scope: &S,
    kind: DataType,
    labels: &[Label],
) -> Result<Vec<TypedLabel>, AllocError>
    ensures { IfOk result (λ list. list.items ≡ map (typed_label (S.means scope.now) kind) (labels_view labels.now)) }
{
    let mut list = Vec::new(alloc);
    for label in labels {
        list.push(typed_label(alloc, scope, kind, label)?)?;
    }
    Ok(list)
}

// A label of one value, or a range where the text writes one.
fn typed_label<S: Scope>(
    alloc: Global,
    scope: &S,
    kind: DataType,
    label: &Label,
) -> Result<TypedLabel, AllocError>
    ensures { IfOk result (λ typed. typed ≡ typed_label (S.means scope.now) kind (label_view label.now)) }
{
    let range = label_range(alloc, scope, kind, label)?;
    Ok(labelled_by(range, &label.high))
}

fn labelled_by(range: Range, high: &Option<Expr>) -> TypedLabel
    ensures { result ≡ labelled_by range (initial_view high.now) }
{
    match high {
        None => TypedLabel::Single(range.low),
        Some(_) => TypedLabel::Span(range),
    }
}

fn value_at(place: Place) -> Value
    ensures { result ≡ value_of_number (read_of place) }
{
    match place {
        Place::Cell(_) => 0,
        Place::Value(value) => value,
    }
}

fn value_of(meaning: Option<Meaning>) -> Value
    ensures { result ≡ value_of_number (meaning_read meaning) }
{
    match meaning {
        None => 0,
        Some(meaning) => value_at(meaning.place),
    }
}

// A constant that is a name, by what the name stands for.
fn named_constant(kind: DataType, meaning: Option<Meaning>) -> Constant
    ensures value { result.value ≡ value_of_number (meaning_read meaning) }
    ensures judged { result.judged ≡ outcome_of (judged_meaning meaning) }
    ensures fits { result.fits ≡ is_same_type (or_dint (or_else (kind_at meaning) (Some kind))) kind }
{
    Constant {
        value: value_of(meaning),
        judged: judge_meaning(meaning),
        fits: or_dint(kind_at(meaning).or(Some(kind))).is_same(kind),
    }
}

// A name is looked up once.
fn judge_constant<S: Scope>(
    alloc: Global,
    scope: &S,
    kind: DataType,
    constant: &Expr,
) -> Result<Constant, AllocError>
    ensures value { IfOk result (λ c. c.value ≡ constant_of (S.means scope.now) kind (tree_view constant.now)) }
    ensures judged { IfOk result (λ c. c.judged ≡ outcome_of (judged (S.means scope.now) (Some kind) (tree_view constant.now))) }
    ensures fits { IfOk result (λ c. c.fits ≡ is_of_type (S.means scope.now) kind (tree_view constant.now)) }
{
    match constant {
        Expr::Path(path) => Ok(named_constant(kind, scope.meaning(path))),
        Expr::Enumerator(_, value) => Ok(named_constant(kind, scope.value(value))),
        _ => {
            let value = constant_of(alloc, scope, kind, constant)?;
            let judged = judge_and_synthesize(alloc, scope, Some(kind), constant)?;
            Ok(Constant {
                value,
                judged: judged.outcome,
                fits: judged.kind(Some(kind)).is_same(kind),
            })
        }
    }
}

// Each constant of a label is judged once.
#[tactic(auto, using(typing_laws::proofs::Judging::judging))]
fn judge_constants<S: Scope>(
    alloc: Global,
    scope: &S,
    kind: DataType,
    label: &Label,
) -> Result<Constants, AllocError>
    ensures range { IfOk result (λ c. c.range ≡ label_range (S.means scope.now) kind (label_view label.now)) }
    ensures judged { IfOk result (λ c. c.judged ≡ outcome_of (and (judged (S.means scope.now) (Some kind) (tree_view label.now.low)) (judged_high (S.means scope.now) kind (initial_view label.now.high)))) }
    ensures fit { IfOk result (λ c. c.fit ≡ (is_of_type (S.means scope.now) kind (tree_view label.now.low) && high_is_of_type (S.means scope.now) kind (initial_view label.now.high))) }
{
    let low = judge_constant(alloc, scope, kind, &label.low)?;
    match &label.high {
        None => Ok(Constants {
            range: Range {
                low: low.value,
                high: low.value,
            },
            judged: low.judged.and(Outcome::ok()),
            fit: low.fits,
        }),
        Some(high) => {
            let high = judge_constant(alloc, scope, kind, high)?;
            Ok(Constants {
                range: Range {
                    low: low.value,
                    high: high.value,
                },
                judged: low.judged.and(high.judged),
                fit: low.fits && high.fits,
            })
        }
    }
}

fn is_in_order(range: Range) -> bool
    ensures { result ≡ int_le range.low range.high }
{
    range.low <= range.high
}

// A label is of the selector's type, its bounds are in order, and it has no value of the labels seen before.
fn judge_label<S: Scope>(
    scope: &S,
    kind: DataType,
    label: &Label,
    constants: Constants,
    is_new: bool,
) -> Outcome
    ensures { (seen : List Range) → constants.judged ≡ outcome_of (and (judged (S.means scope.now) (Some kind) (tree_view label.now.low)) (judged_high (S.means scope.now) kind (initial_view label.now.high)))
        → constants.range ≡ label_range (S.means scope.now) kind (label_view label.now)
        → constants.fit ≡ (is_of_type (S.means scope.now) kind (tree_view label.now.low) && high_is_of_type (S.means scope.now) kind (initial_view label.now.high))
        → is_new ≡ not (overlaps seen constants.range) → result ≡ outcome_of (judged_label (S.means scope.now) kind seen (label_view label.now)) }
{
    let at = place_of(&label.low);
    constants
        .judged
        .require(constants.fit, Rule::OperandType, at)
        .require(is_in_order(constants.range), Rule::OutsideType, at)
        .require(is_new, Rule::Overlap, at)
}

// Judges a label, which is seen from then on where it breaks no rule.
fn take_label<S: Scope>(
    alloc: Global,
    scope: &S,
    kind: DataType,
    seen: &mut Seen,
    label: &Label,
) -> Result<Outcome, AllocError>
    ensures { IfOk result (λ outcome. (list : List Range) → Sees seen.old list
        → (outcome ≡ outcome_of (judged_label (S.means scope.now) kind list (label_view label.now))) × Sees seen.new (seen_with (S.means scope.now) kind list (label_view label.now))) }
{
    let constants = judge_constants(alloc, scope, kind, label)?;
    let is_new = !seen.overlaps(constants.range);
    let outcome = judge_label(scope, kind, label, constants, is_new);
    if outcome.whole {
        seen.insert(constants.range)?;
    }
    Ok(outcome)
}

// Labels behind what was judged so far.
fn take_labels<S: Scope>(
    alloc: Global,
    scope: &S,
    kind: DataType,
    seen: &mut Seen,
    so_far: Outcome,
    labels: &[Label],
) -> Result<Outcome, AllocError>
    ensures { IfOk result (λ outcome. (list : List Range) → Sees seen.old list
        → (outcome ≡ labels_outcome (S.means scope.now) kind list so_far (labels_view labels.now)) × Sees seen.new (seen_behind (S.means scope.now) kind list (labels_view labels.now))) }
{
    let mut judged = so_far;
    for label in labels {
        judged = judged.and(take_label(alloc, scope, kind, seen, label)?);
    }
    Ok(judged)
}

/// The labels of the entries of a CASE whose selector has a type, in n log n steps.
pub(crate) fn judge_labels<S: Scope>(
    alloc: Global,
    scope: &S,
    kind: DataType,
    entries: &[Entry],
) -> Result<Outcome, AllocError>
    ensures { IfOk result (λ outcome. outcome ≡ outcome_of (judged_labels (S.means scope.now) kind [] (all_labels (entries_view entries.now)))) }
{
    let mut seen = Seen::new(alloc);
    let mut judged = Outcome::ok();
    for entry in entries {
        judged = take_labels(alloc, scope, kind, &mut seen, judged, &entry.labels)?;
    }
    Ok(judged)
}
