// Tests of the labels of a CASE.
ghost use Rattle.std.specs.Prelude.{◌≡◌, map, IfOk};
ghost use Rattle.program_tree.specs.View.{expr_view, operand_view};
ghost use Rattle.program_tree.specs.declared.typed.TypedLabel.TheVariants.{Span};
ghost use Rattle.flat_form.specs.FlatLists.{label_test, or_test, labels_test};

use flat_charts::{chain, joined};
use plc_types::{Elementary, Operator, Range};
use program_tree::{Operand, TypedExpr, TypedLabel};
use std::alloc::{AllocError, Global};

/// Whether the value at a place is one of those of labels: their tests, joined by OR from the left.
pub fn labels_test(
    alloc: Global,
    kind: Elementary,
    place: usize,
    labels: &[TypedLabel],
) -> Result<TypedExpr, AllocError>
    ensures { IfOk result (λ e. expr_view e ≡ labels_test kind place labels.now) }
{
    match labels {
        [] => Ok(TypedExpr::Number(0)),
        [only] => label_test(alloc, kind, place, *only),
        [first, others @ ..] => {
            let first = label_test(alloc, kind, place, *first)?;
            let others = or_tests(alloc, kind, place, others)?;
            chain(alloc, first, others)
        }
    }
}

fn or_tests(
    alloc: Global,
    kind: Elementary,
    place: usize,
    labels: &[TypedLabel],
) -> Result<Vec<Operand>, AllocError>
    ensures { IfOk result (λ os. map operand_view os.items ≡ map (or_test kind place) labels.now) }
{
    let mut tests = Vec::new(alloc);
    for label in labels {
        let right = label_test(alloc, kind, place, *label)?;
        tests.push(Operand {
            operator: Operator::Or,
            kind: Elementary::Bool,
            right,
        })?;
    }
    Ok(tests)
}

fn label_test(
    alloc: Global,
    kind: Elementary,
    place: usize,
    label: TypedLabel,
) -> Result<TypedExpr, AllocError>
    ensures { IfOk result (λ e. expr_view e ≡ label_test kind place label) }
{
    match label {
        TypedLabel::Single(only) => {
            let value = TypedExpr::Cell(place);
            joined(alloc, value, Operator::Equal, kind, TypedExpr::Number(only))
        }
        TypedLabel::Span(range) => range_test(alloc, kind, place, range),
    }
}

fn range_test(
    alloc: Global,
    kind: Elementary,
    place: usize,
    range: Range,
) -> Result<TypedExpr, AllocError>
    ensures { IfOk result (λ e. expr_view e ≡ label_test kind place (Span range)) }
{
    let low = TypedExpr::Number(range.low);
    let high = TypedExpr::Number(range.high);
    let value = TypedExpr::Cell(place);
    let from = joined(alloc, low, Operator::LessEqual, kind, value)?;
    let value = TypedExpr::Cell(place);
    let up_to = joined(alloc, value, Operator::LessEqual, kind, high)?;
    joined(alloc, from, Operator::And, Elementary::Bool, up_to)
}
