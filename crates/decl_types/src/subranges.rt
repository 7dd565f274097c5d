// Subranges of the integer types (IEC 61131-3, 2.3.3).
ghost use Rattle.std.specs.Prelude.{◌≡◌, int_le, IfOk};
ghost use Rattle.source_tree.specs.SyntaxView.{tree_view, bounds_view};
ghost use Rattle.decl_types.specs.Bodies.{file_of};
ghost use Rattle.typing.specs.Domains.{bounds_of, judged_bound_of, judged_subrange, subrange_domain};
ghost use Rattle.rules.specs.Outcomes.{outcome_of};

use crate::elementary_domains::no_domain;
use crate::file_types::FileTypes;
use expr_types::{constant_of, judge_and_synthesize, place_of};
use plc_types::{DataType, Elementary, Range};
use rules::{Outcome, Rule};
use source_tree::{Bounds, Expr};
use std::alloc::{AllocError, Global};
use typing::Domain;

fn bounds_of(
    alloc: Global,
    file: &FileTypes<'_>,
    kind: Elementary,
    bounds: &Bounds,
) -> Result<Range, AllocError>
    ensures { IfOk result (λ range. range ≡ bounds_of (file_of file.now) kind (bounds_view bounds.now)) }
{
    let kind = DataType::Elementary(kind);
    let low = constant_of(alloc, file, kind, &bounds.low)?;
    let high = constant_of(alloc, file, kind, &bounds.high)?;
    Ok(Range { low, high })
}

fn are_in_order(bounds: Range) -> bool
    ensures { result ≡ int_le bounds.low bounds.high }
{
    bounds.low <= bounds.high
}

// A bound is a value of the type that it limits.
#[tactic(auto, using(typing_laws::proofs::Judging::judging))]
fn judge_bound(
    alloc: Global,
    file: &FileTypes<'_>,
    kind: Elementary,
    bound: &Expr,
) -> Result<Outcome, AllocError>
    ensures { IfOk result (λ o. o ≡ outcome_of (judged_bound_of (file_of file.now) kind (tree_view bound.now))) }
{
    let kind = DataType::Elementary(kind);
    let judged = judge_and_synthesize(alloc, file, Some(kind), bound)?;
    let fits = judged.kind(Some(kind)).is_same(kind);
    Ok(
        judged
            .outcome
            .require(fits, Rule::OperandType, place_of(bound)),
    )
}

// A subrange with these bounds is one of an integer type, and they are in order.
fn judge_subrange(
    alloc: Global,
    file: &FileTypes<'_>,
    kind: Elementary,
    at: usize,
    bounds: &Bounds,
    range: Range,
) -> Result<Outcome, AllocError>
    requires { range ≡ bounds_of (file_of file.now) kind (bounds_view bounds.now) }
    ensures { IfOk result (λ o. o ≡ outcome_of (judged_subrange (file_of file.now) kind at (bounds_view bounds.now))) }
{
    let low = judge_bound(alloc, file, kind, &bounds.low)?;
    let high = judge_bound(alloc, file, kind, &bounds.high)?;
    let parts = low.and(high);
    let limits = parts.require(kind.is_integer(), Rule::OperandType, at);
    let in_order = are_in_order(range);
    Ok(limits.require(in_order, Rule::OutsideType, place_of(&bounds.low)))
}

/// What a subrange breaks, and its values.
#[tactic(auto, unfolding(rules::specs::Outcomes::outcome_of))]
pub(crate) fn judged_subrange_domain(
    alloc: Global,
    file: &FileTypes<'_>,
    kind: Elementary,
    at: usize,
    bounds: &Bounds,
) -> Result<(Outcome, Domain), AllocError>
    ensures judged { IfOk result (λ r. r.0 ≡ outcome_of (judged_subrange (file_of file.now) kind at (bounds_view bounds.now))) }
    ensures domain { IfOk result (λ r. r.1 ≡ subrange_domain (file_of file.now) kind at (bounds_view bounds.now)) }
{
    let range = bounds_of(alloc, file, kind, bounds)?;
    let judged = judge_subrange(alloc, file, kind, at, bounds, range)?;
    if !judged.whole {
        return Ok((judged, no_domain()));
    }
    let domain = Domain {
        kind: DataType::Elementary(kind),
        range,
        is_subrange: true,
        start: range.low,
        whole: true,
    };
    Ok((judged, domain))
}
