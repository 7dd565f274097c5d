// The bodies of POUs, judged and typed.
ghost use Rattle.std.specs.Prelude.{◌≡◌, true, Some, map, IfOk};
ghost use Rattle.source_tree.specs.SyntaxView.{body_view, pou_view};
ghost use Rattle.program_tree.specs.View.{stmt_view, stmts_view};
ghost use Rattle.naming.specs.FileScope.{pous_of, pou_at};
ghost use Rattle.decl_types.specs.Bodies.{file_in};
ghost use Rattle.decl_types.specs.ToldView.{told_view};
ghost use Rattle.pou_cells.specs.Placing.{is_placed};
ghost use Rattle.rules.specs.Outcomes.{outcome_of};
ghost use Rattle.typing.specs.Outcomes.{pous_outcome};
ghost use Rattle.typing.specs.Places.{variables_at};
ghost use Rattle.typing.specs.Pous.{judged_body, judged_pou};
ghost use Rattle.typing.specs.TypedPrograms.{begun, typed_body, pou_body};
ghost use Rattle.pou_cells.specs.ToldPlaces.{told_at, HavePlaces};
ghost use Rattle.st_types.specs.LowNames.{HasLowNames};
ghost use Rattle.st_types.specs.ToldBeginnings.{told_beginnings};

use crate::charts::{judge_parts, type_chart};
use decl_types::{Told, judge_told};
use pou_cells::{
    PlacedPous, PlacedScope, PouScope, Pous, first_place, first_places, is_temporary, places_behind,
};
use program_tree::{TypedExpr, TypedStmt};
use rules::Outcome;
use source_tree::{Body, Pou};
use std::alloc::{AllocError, Global};
use stmt_types::{judge_list, type_list};
use typing::{Next, Scope};
use use_numbers::UseNumbers;

// What a body breaks.
fn judge_body<S: Scope>(alloc: Global, scope: &S, body: &Body) -> Result<Outcome, AllocError>
    ensures { IfOk result (λ o. o ≡ outcome_of (judged_body (S.means scope.now) (body_view body.now))) }
{
    match body {
        Body::Statements(stmts) => judge_list(alloc, scope, stmts),
        Body::Chart(chart) => judge_parts(alloc, scope, &chart.parts),
    }
}

// What the POU of a number breaks.
#[tactic(auto, using(typing_laws::proofs::Judging::judging))]
fn judge_pou(
    alloc: Global,
    pous: &Pous<'_>,
    number: usize,
    pou: &Pou,
) -> Result<Outcome, AllocError>
    requires { pou_at (file_in pous.now.domains) number ≡ Some (pou_view pou.now) }
    ensures { IfOk result (λ o. o ≡ outcome_of (judged_pou (file_in pous.now.domains) number (pou_view pou.now))) }
{
    let declared = judge_told(Outcome::ok(), pous.told_at(number));
    let scope = PouScope { pous, number };
    let body = judge_body(alloc, &scope, &pou.body)?;
    Ok(declared.and(body))
}

/// What the POUs of a file break, behind what was judged so far.
pub(crate) fn judge_pous(
    alloc: Global,
    pous: &Pous<'_>,
    so_far: Outcome,
) -> Result<Outcome, AllocError>
    ensures { IfOk result (λ o. o ≡ pous_outcome (file_in pous.now.domains) 0 so_far (pous_of (file_in pous.now.domains))) }
{
    let names = pous.domains.types.names;
    let mut judged = so_far;
    for number in 0..names.pou_count() {
        judged = judged.and(judge_pou(alloc, pous, number, names.pou(number))?);
    }
    Ok(judged)
}

// The assignments that a body begins with: to each VAR_TEMP variable, of those from a place on, where blocks have these sizes.
fn beginnings(
    alloc: Global,
    sizes: &[usize],
    first: Next,
    variables: &[Told<'_>],
) -> Result<Vec<TypedStmt>, AllocError>
    requires { HavePlaces sizes.now first (map told_view variables.now) }
    ensures { IfOk result (λ list. map stmt_view list.items ≡ told_beginnings sizes.now first (map told_view variables.now)) }
{
    let mut list = Vec::new(alloc);
    let mut next = first;
    for told in variables {
        if is_temporary(told.role) {
            let value = TypedExpr::Number(told.initial);
            list.push(TypedStmt::Assign(first_place(next, told), value))?;
        }
        next = places_behind(sizes, next, told);
    }
    Ok(list)
}

/// The typed statements of a body, where these are the numbers of the file's uses of names.
pub(crate) fn type_body<S: Scope>(
    alloc: Global,
    scope: &S,
    uses: &UseNumbers,
    body: &Body,
) -> Result<Vec<TypedStmt>, AllocError>
    requires { HasLowNames (S.means scope.now) }
    ensures { IfOk result (λ list. stmts_view list.items ≡ typed_body (S.means scope.now) (body_view body.now)) }
{
    match body {
        Body::Statements(stmts) => type_list(alloc, scope, stmts),
        Body::Chart(chart) => {
            let stmt = type_chart(alloc, scope, uses, chart)?;
            Ok(vec![in alloc; stmt]?)
        }
    }
}

// The typed statements of the body of the POU of a number, whose variables are placed, behind the assignments to its VAR_TEMP variables,
// whose cells begin at places.
fn begin_body<S: Scope>(
    alloc: Global,
    placed: &PlacedPous<'_>,
    number: usize,
    first: Next,
    scope: &S,
    pou: &Pou,
) -> Result<Vec<TypedStmt>, AllocError>
    requires placed { is_placed (file_in placed.now.pous.domains) number ≡ true }
    requires room { HavePlaces placed.now.sizes.items first (told_at (file_in placed.now.pous.domains) number) }
    requires low { HasLowNames (S.means scope.now) }
    ensures { IfOk result (λ list. stmts_view list.items ≡ begun (file_in placed.now.pous.domains) first (variables_at (file_in placed.now.pous.domains) number) (typed_body (S.means scope.now) (pou_view pou.now).body)) }
{
    let mut list = beginnings(alloc, &placed.sizes, first, placed.pous.told_at(number))?;
    let uses = placed.pous.domains.types.names.numbers();
    let mut behind = type_body(alloc, scope, uses, &pou.body)?;
    list.append(&mut behind)?;
    Ok(list)
}

/// The typed statements of the body of the POU of a number, whose variables are placed, behind those that it begins with.
pub(crate) fn pou_body(
    alloc: Global,
    placed: &PlacedPous<'_>,
    number: usize,
    pou: &Pou,
) -> Result<Vec<TypedStmt>, AllocError>
    requires there { pou_at (file_in placed.now.pous.domains) number ≡ Some (pou_view pou.now) }
    requires placed { is_placed (file_in placed.now.pous.domains) number ≡ true }
    ensures { IfOk result (λ list. stmts_view list.items ≡ pou_body (file_in placed.now.pous.domains) number (pou_view pou.now)) }
{
    let first = first_places(&placed.sizes, &pou.pou_type, placed.pous.told_at(number));
    let scope = PlacedScope { placed, number };
    begin_body(alloc, placed, number, first, &scope, pou)
}
