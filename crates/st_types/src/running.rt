// The bodies of the POUs that may run. They alone are typed: nothing is asked of the places in a POU that never runs.
ghost use Rattle.std.specs.Prelude.{◌≡◌, ◌<◌, ℕ, true, false, replicate, length, slice_index_or, IfOk, IfErr, OnOk};
ghost use Rattle.call_order.specs.Marks.{is_marked};
ghost use Rattle.program_tree.specs.Tree.{no_statements};
ghost use Rattle.program_tree.specs.View.{stmts_view};
ghost use Rattle.naming.specs.FileScope.{pou_at};
ghost use Rattle.decl_types.specs.Bodies.{file_in};
ghost use Rattle.typing.specs.Members.{called_order};
ghost use Rattle.typing.specs.TypedPrograms.{called_by};
ghost use Rattle.running_pous.specs.Bodies.{bodies_view, body_if, bodies_from};
ghost use Rattle.running_pous.specs.Running.{may_run};
ghost use Rattle.pou_cells.specs.Placing.{is_placed};
ghost use Rattle.rules.specs.declared.fault.Fault.TheVariants.{Refused};
ghost use Rattle.rules.specs.declared.rule.Rule.TheVariants.{TooManyStatements};
ghost use Rattle.rules.specs.Faults.{IfRefused};
ghost use Rattle.st_types.specs.LargePous.{any_large, IsRefusedIf};

use crate::bodies::pou_body;
use decl_types::pou_at;
use pou_cells::PlacedPous;
use program_tree::TypedStmt;
use rules::{Fault, Refusal, Rule};
use running_pous::{mark, uses_of};
use std::alloc::{AllocError, Global};

/// For each POU that may be called whether it may run, and its body, which has no statements where it may not.
#[derive(Drop)]
pub(crate) struct Running {
    pub runs: Vec<bool>,
    pub bodies: Vec<Vec<TypedStmt>>,
}

// A body without statements for each of so many POUs.
fn no_bodies(alloc: Global, count: usize) -> Result<Vec<Vec<TypedStmt>>, AllocError>
    ensures { IfOk result (λ list. bodies_view list.items ≡ replicate count no_statements) }
{
    let mut list = Vec::new(alloc);
    for _ in 0..count {
        list.push(Vec::new(alloc))?;
    }
    Ok(list)
}

// The number of a POU, by its number among those that may be called.
fn number_of(called: &[usize], place: usize) -> usize
    ensures { result ≡ slice_index_or called.now place 0 }
{
    called.get(place).copied().unwrap_or(0)
}

/// Why a POU that may run is not spread where it is large, by M5: each call of such a FUNCTION becomes more than 200,000 flat statements.
pub(crate) fn too_large() -> Fault
    ensures { result ≡ Refused (record { rule = TooManyStatements; at = 0 }) }
{
    Fault::Refused(Refusal {
        rule: Rule::TooManyStatements,
        at: 0,
    })
}

// The body of the POU of a number, which is not large.
fn body_if(
    alloc: Global,
    placed: &PlacedPous<'_>,
    number: usize,
) -> Result<Vec<TypedStmt>, AllocError>
    requires { is_placed (file_in placed.now.pous.domains) number ≡ true }
    ensures { IfOk result (λ body. stmts_view body.items ≡ body_if (file_in placed.now.pous.domains) number (pou_at (file_in placed.now.pous.domains) number)) }
{
    match pou_at(placed.pous.domains.types.names, number) {
        None => Ok(Vec::new(alloc)),
        Some(pou) => pou_body(alloc, placed, number, pou),
    }
}

/// The bodies of the POUs that may run, where the PROGRAM has this body and none of them is large; M5 where one is.
pub(crate) fn running_bodies(
    alloc: Global,
    placed: &PlacedPous<'_>,
    body: &[TypedStmt],
) -> Result<Running, Fault>
    ensures runs { IfOk result (λ r. (k : ℕ) → k < length (called_order (file_in placed.now.pous.domains)) → is_marked r.runs.items k ≡ may_run (called_by (file_in placed.now.pous.domains)) (stmts_view body.now) k) }
    ensures bodies { IfOk result (λ r. bodies_view r.bodies.items ≡ bodies_from (file_in placed.now.pous.domains) (is_marked r.runs.items) 0 (called_order (file_in placed.now.pous.domains))) }
    ensures few { OnOk result (any_large (file_in placed.now.pous.domains) (may_run (called_by (file_in placed.now.pous.domains)) (stmts_view body.now)) 0 (called_order (file_in placed.now.pous.domains)) ≡ false) }
    ensures refused { IfErr result (IfRefused (IsRefusedIf (any_large (file_in placed.now.pous.domains) (may_run (called_by (file_in placed.now.pous.domains)) (stmts_view body.now)) 0 (called_order (file_in placed.now.pous.domains))))) }
{
    let called = placed.pous.called.as_slice();
    let mut marks = vec![in alloc; false; called.len()]?;
    let mut runs = vec![in alloc; false; called.len()]?;
    let mut bodies = no_bodies(alloc, called.len())?;
    let mut waiting = Vec::new(alloc);
    let first = uses_of(alloc, body)?;
    mark(&first, &mut marks, &mut waiting)?;
    while let Some(number) = waiting.pop() {
        let pou = number_of(called, number);
        if !placed.is_placed(pou) {
            return Err(too_large());
        }
        let body = body_if(alloc, placed, pou)?;
        let uses = uses_of(alloc, &body)?;
        mark(&uses, &mut marks, &mut waiting)?;
        runs[number] = true;
        bodies[number] = body;
    }
    Ok(Running { runs, bodies })
}
