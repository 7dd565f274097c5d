// Statements as flat statements.
ghost use Rattle.std.specs.Prelude.{◌≡◌, ◌+◌, ◌++◌, ◌∷◌, [], false, length, OnOk};
ghost use Rattle.program_tree.specs.Tree.{cases, call_block, repeat, own_body};
ghost use Rattle.program_tree.specs.View.{expr_view, stmt_view, stmts_view, arm_view, choices_view, entries_view};
ghost use Rattle.flat_core.specs.FlatView.{flats_view, flat_arms_view};
ghost use Rattle.flat_charts.specs.Views.{owner_view};
ghost use Rattle.flat_form.specs.Unless.{was_left, guarded, unless_left};
ghost use Rattle.flat_form.specs.FlatLists.{scratch_of, scratch_of_all, scratch_of_choices, scratch_of_entries, repeated, flat_of, flat_of_all, flat_choices, flat_choice, scratch_of_choice, flat_entries, unrolled};
ghost use Rattle.flat_charts.specs.Views.{bodies_here, IsKnown};
ghost use Rattle.typed_programs.specs.Statements.{IsTyped, AreTyped, AreTypedChoices, AreTypedEntries, IsTypedPart, AreTypedParts};
ghost use Rattle.fb_inline.specs.Leaving.{flags_view};
ghost use Rattle.fb_inline.specs.TypedScopes.{IsTypedOver, HasType};

use crate::calls::flatten_expr;
use crate::charts::flatten_chart;
use crate::labels::labels_test;
use crate::leaving::{Flags, NO_FLAGS, Part, body_flags, close, put_guarded, turn_flags};
use crate::puts::{put_arm, put_if, put_number, put_selector, put_set};
use flat_charts::{FlatScope, place_at};
use flat_core::{FlatArm, FlatStmt};
use flat_count::{Leaves, leaving, leaving_all};
use flat_form::is_idle_block;
use plc_types::Elementary;
use program_tree::{Called, Scratch, Turns, TypedArm, TypedEntry, TypedExpr, TypedStmt};
use std::alloc::{AllocError, Global};
use std::mem;

/// Appends the flat list of statements over cells, and their scratch cells. What stands behind a statement that may leave is a list of its own,
/// which is put in its place when all are there.
#[cycle(flatten)]
pub fn flatten_all(
    list: &[TypedStmt],
    scope: &FlatScope<'_, '_>,
    flags: Flags,
    scratch: &mut Vec<Scratch>,
    out: &mut Vec<FlatStmt>,
    alloc: Global,
) -> Result<(), AllocError>
    requires known { IsKnown scope.now }
    requires typed { IsTypedOver scope.now (λ pous b. AreTypedParts pous b (stmts_view list.now)) }
    ensures list { OnOk result (flats_view out.new.items
        ≡ flats_view out.old.items ++ flat_of_all (bodies_here scope.now) (owner_view scope.now.owner) scope.now.base (flags_view flags) (stmts_view list.now) (scope.now.cells + length scratch.old.items)) }
    ensures scratch { OnOk result (scratch.new.items ≡ scratch.old.items ++ scratch_of_all (bodies_here scope.now) (stmts_view list.now)) }
{
    let mut parts = Vec::new(alloc);
    for stmt in list {
        flatten_one(stmt, scope, flags, scratch, out, alloc)?;
        let left = leaving(stmt);
        if left.exits || left.returns {
            let list = mem::replace(out, Vec::new(alloc));
            parts.push(Part { left, list })?;
        }
    }
    close(parts, flags, out, alloc)
}

#[cycle(flatten)]
fn flatten_one(
    stmt: &TypedStmt,
    scope: &FlatScope<'_, '_>,
    flags: Flags,
    scratch: &mut Vec<Scratch>,
    out: &mut Vec<FlatStmt>,
    alloc: Global,
) -> Result<(), AllocError>
    requires known { IsKnown scope.now }
    requires typed { IsTypedOver scope.now (λ pous b. IsTypedPart pous b (stmt_view stmt.now)) }
    ensures list { OnOk result (flats_view out.new.items
        ≡ flats_view out.old.items ++ flat_of (bodies_here scope.now) (owner_view scope.now.owner) scope.now.base (flags_view flags) (stmt_view stmt.now) (scope.now.cells + length scratch.old.items)) }
    ensures scratch { OnOk result (scratch.new.items ≡ scratch.old.items ++ scratch_of (bodies_here scope.now) (stmt_view stmt.now)) }
{
    match stmt {
        TypedStmt::Assign(target, expr) => {
            let expr = flatten_expr(expr, scope, scratch, out, alloc)?;
            let target = place_at(scope, *target);
            put_set(out, target, expr)
        }
        TypedStmt::CallBlock { block, offset } => {
            flatten_block(*block, *offset, scope, scratch, out, alloc)
        }
        TypedStmt::If(arms, other) => {
            let mut flat_arms = Vec::new(alloc);
            flatten_arms(arms, scope, flags, scratch, &mut flat_arms, alloc)?;
            let mut rest = Vec::new(alloc);
            flatten_all(other, scope, flags, scratch, &mut rest, alloc)?;
            put_if(out, flat_arms, rest)
        }
        TypedStmt::Case(kind, selector, entries, other) => {
            flatten_case(
                *kind, selector, entries, other, scope, flags, scratch, out, alloc,
            )
        }
        TypedStmt::For(turns, body) => {
            flatten_for(body, *turns, scope, flags, scratch, out, alloc)
        }
        TypedStmt::Chart(steps, actions, transitions) => {
            flatten_chart(steps, actions, transitions, scope, scratch, out, alloc)
        }
        TypedStmt::Exit => put_number(out, flags.exit, 1),
        TypedStmt::Return => put_number(out, flags.returning, 1),
        TypedStmt::Body(body) => flatten_body(body, scope, flags, scratch, out, alloc),
    }
}

// A CASE.
#[cycle(flatten)]
fn flatten_case(
    kind: Elementary,
    selector: &TypedExpr,
    entries: &[TypedEntry],
    other: &[TypedStmt],
    scope: &FlatScope<'_, '_>,
    flags: Flags,
    scratch: &mut Vec<Scratch>,
    out: &mut Vec<FlatStmt>,
    alloc: Global,
) -> Result<(), AllocError>
    requires known { IsKnown scope.now }
    requires typed { IsTypedOver scope.now (λ pous b. IsTyped pous b (cases kind (expr_view selector.now) (entries_view entries.now) (stmts_view other.now))) }
    ensures list { OnOk result (flats_view out.new.items
        ≡ flats_view out.old.items ++ flat_of (bodies_here scope.now) (owner_view scope.now.owner) scope.now.base (flags_view flags) (cases kind (expr_view selector.now) (entries_view entries.now) (stmts_view other.now)) (scope.now.cells + length scratch.old.items)) }
    ensures scratch { OnOk result (scratch.new.items
        ≡ scratch.old.items ++ scratch_of (bodies_here scope.now) (cases kind (expr_view selector.now) (entries_view entries.now) (stmts_view other.now))) }
{
    let value = flatten_expr(selector, scope, scratch, out, alloc)?;
    let place = put_selector(kind, value, scope.cells, scratch, out)?;
    let mut flat_arms = Vec::new(alloc);
    flatten_entries(
        entries,
        kind,
        place,
        scope,
        flags,
        scratch,
        &mut flat_arms,
        alloc,
    )?;
    let mut rest = Vec::new(alloc);
    flatten_all(other, scope, flags, scratch, &mut rest, alloc)?;
    put_if(out, flat_arms, rest)?;
    Ok(())
}

// The body of a FUNCTION_BLOCK, over the cells of an instance, which begin at a place of the POU's. A block that does nothing is not walked,
// so that blocks without statements which run each other 2 to the power of n times cost nothing.
#[cycle(flatten)]
fn flatten_block(
    block: usize,
    offset: usize,
    scope: &FlatScope<'_, '_>,
    scratch: &mut Vec<Scratch>,
    out: &mut Vec<FlatStmt>,
    alloc: Global,
) -> Result<(), AllocError>
    requires known { IsKnown scope.now }
    requires typed { IsTypedOver scope.now (λ pous b. IsTyped pous b (call_block block offset)) }
    ensures list { OnOk result (flats_view out.new.items
        ≡ flats_view out.old.items ++ (bodies_here scope.now).run_list (owner_view scope.now.owner) block (scope.now.base + offset) (scope.now.cells + length scratch.old.items)) }
    ensures scratch { OnOk result (scratch.new.items ≡ scratch.old.items ++ (bodies_here scope.now).run_scratch block) }
{
    if is_idle_block(scope.idle, block) {
        return Ok(());
    }
    let callee = &scope.called[block];
    if let Called::Block(body) = callee {
        let instance = FlatScope {
            cells: scope.cells,
            owner: scope.owner,
            base: scope.base + offset,
            called: scope.called,
            idle: scope.idle,
            below: block,
        };
        flatten_all(body, &instance, NO_FLAGS, scratch, out, alloc)?;
    }
    Ok(())
}

// The arms of an IF.
#[cycle(flatten)]
fn flatten_arms(
    arms: &[TypedArm],
    scope: &FlatScope<'_, '_>,
    flags: Flags,
    scratch: &mut Vec<Scratch>,
    out: &mut Vec<FlatArm>,
    alloc: Global,
) -> Result<(), AllocError>
    requires known { IsKnown scope.now }
    requires typed { IsTypedOver scope.now (λ pous b. AreTypedChoices pous b (choices_view arms.now)) }
    ensures list { OnOk result (flat_arms_view out.new.items
        ≡ flat_arms_view out.old.items ++ flat_choices (bodies_here scope.now) (owner_view scope.now.owner) scope.now.base (flags_view flags) (choices_view arms.now) (scope.now.cells + length scratch.old.items)) }
    ensures scratch { OnOk result (scratch.new.items ≡ scratch.old.items ++ scratch_of_choices (bodies_here scope.now) (choices_view arms.now)) }
{
    for arm in arms {
        flatten_arm(arm, scope, flags, scratch, out, alloc)?;
    }
    Ok(())
}

#[cycle(flatten)]
fn flatten_arm(
    arm: &TypedArm,
    scope: &FlatScope<'_, '_>,
    flags: Flags,
    scratch: &mut Vec<Scratch>,
    out: &mut Vec<FlatArm>,
    alloc: Global,
) -> Result<(), AllocError>
    requires known { IsKnown scope.now }
    requires typed { IsTypedOver scope.now (λ pous b. HasType pous b (arm_view arm.now).0 × AreTyped pous b (arm_view arm.now).1) }
    ensures list { OnOk result (flat_arms_view out.new.items
        ≡ flat_arms_view out.old.items ++ flat_choice (bodies_here scope.now) (owner_view scope.now.owner) scope.now.base (flags_view flags) (arm_view arm.now) (scope.now.cells + length scratch.old.items) ∷ []) }
    ensures scratch { OnOk result (scratch.new.items ≡ scratch.old.items ++ scratch_of_choice (bodies_here scope.now) (arm_view arm.now)) }
{
    let mut before = Vec::new(alloc);
    let condition = flatten_expr(&arm.condition, scope, scratch, &mut before, alloc)?;
    let mut body = Vec::new(alloc);
    flatten_all(&arm.body, scope, flags, scratch, &mut body, alloc)?;
    put_arm(out, before, condition, body)?;
    Ok(())
}

// The entries of a CASE, whose selector's value is at a place.
#[cycle(flatten)]
fn flatten_entries(
    entries: &[TypedEntry],
    kind: Elementary,
    place: usize,
    scope: &FlatScope<'_, '_>,
    flags: Flags,
    scratch: &mut Vec<Scratch>,
    out: &mut Vec<FlatArm>,
    alloc: Global,
) -> Result<(), AllocError>
    requires known { IsKnown scope.now }
    requires typed { IsTypedOver scope.now (λ pous b. AreTypedEntries pous b kind (entries_view entries.now)) }
    ensures list { OnOk result (flat_arms_view out.new.items
        ≡ flat_arms_view out.old.items ++ flat_entries (bodies_here scope.now) (owner_view scope.now.owner) scope.now.base (flags_view flags) kind place (entries_view entries.now) (scope.now.cells + length scratch.old.items)) }
    ensures scratch { OnOk result (scratch.new.items ≡ scratch.old.items ++ scratch_of_entries (bodies_here scope.now) (entries_view entries.now)) }
{
    for entry in entries {
        let mut body = Vec::new(alloc);
        flatten_all(&entry.body, scope, flags, scratch, &mut body, alloc)?;
        let condition = labels_test(alloc, kind, place, &entry.labels)?;
        put_arm(out, Vec::new(alloc), condition, body)?;
    }
    Ok(())
}

// A FOR. Where it has an EXIT of its own it has a flag of its own.
#[cycle(flatten)]
fn flatten_for(
    body: &[TypedStmt],
    turns: Turns,
    scope: &FlatScope<'_, '_>,
    flags: Flags,
    scratch: &mut Vec<Scratch>,
    out: &mut Vec<FlatStmt>,
    alloc: Global,
) -> Result<(), AllocError>
    requires known { IsKnown scope.now }
    requires typed { IsTypedOver scope.now (λ pous b. IsTyped pous b (repeat turns (stmts_view body.now))) }
    ensures list { OnOk result (flats_view out.new.items
        ≡ flats_view out.old.items ++ flat_of (bodies_here scope.now) (owner_view scope.now.owner) scope.now.base (flags_view flags) (repeat turns (stmts_view body.now)) (scope.now.cells + length scratch.old.items)) }
    ensures scratch { OnOk result (scratch.new.items ≡ scratch.old.items ++ scratch_of (bodies_here scope.now) (repeat turns (stmts_view body.now))) }
{
    let left = leaving_all(body);
    let inner = turn_flags(left.exits, flags, scope.cells, scratch, out)?;
    if left.exits || left.returns {
        return unroll_guarded(body, turns, left, scope, inner, scratch, out, alloc);
    }
    unroll(body, turns, scope, inner, scratch, out, alloc)
}

// The turns of a FOR that nothing leaves, one after the other.
#[cycle(flatten)]
fn unroll(
    body: &[TypedStmt],
    turns: Turns,
    scope: &FlatScope<'_, '_>,
    flags: Flags,
    scratch: &mut Vec<Scratch>,
    out: &mut Vec<FlatStmt>,
    alloc: Global,
) -> Result<(), AllocError>
    requires known { IsKnown scope.now }
    requires typed { IsTypedOver scope.now (λ pous b. IsTyped pous b (repeat turns (stmts_view body.now))) }
    ensures list { OnOk result (flats_view out.new.items
        ≡ flats_view out.old.items ++ unrolled (unless_left false false (flags_view flags)) turns.count (owner_view scope.now.owner (scope.now.base + turns.control)) turns.first turns.step (length (scratch_of_all (bodies_here scope.now) (stmts_view body.now)))
        (flat_of_all (bodies_here scope.now) (owner_view scope.now.owner) scope.now.base (flags_view flags) (stmts_view body.now)) (scope.now.cells + length scratch.old.items)) }
    ensures scratch { OnOk result (scratch.new.items ≡ scratch.old.items ++ repeated turns.count (scratch_of_all (bodies_here scope.now) (stmts_view body.now))) }
{
    let control = place_at(scope, turns.control);
    let mut value = turns.first;
    for _ in 0..turns.count {
        put_number(out, control, value)?;
        flatten_all(body, scope, flags, scratch, out, alloc)?;
        value += turns.step;
    }
    let ending = value;
    put_number(out, control, ending)
}

// The turns of a FOR that its body may leave, each of which runs where no turn before it left, and so does the end.
#[cycle(flatten)]
fn unroll_guarded(
    body: &[TypedStmt],
    turns: Turns,
    left: Leaves,
    scope: &FlatScope<'_, '_>,
    flags: Flags,
    scratch: &mut Vec<Scratch>,
    out: &mut Vec<FlatStmt>,
    alloc: Global,
) -> Result<(), AllocError>
    requires known { IsKnown scope.now }
    requires typed { IsTypedOver scope.now (λ pous b. IsTyped pous b (repeat turns (stmts_view body.now))) }
    ensures list { OnOk result (flats_view out.new.items
        ≡ flats_view out.old.items ++ unrolled (guarded (was_left left.exits left.returns (flags_view flags))) turns.count (owner_view scope.now.owner (scope.now.base + turns.control)) turns.first turns.step (length (scratch_of_all (bodies_here scope.now) (stmts_view body.now)))
        (flat_of_all (bodies_here scope.now) (owner_view scope.now.owner) scope.now.base (flags_view flags) (stmts_view body.now)) (scope.now.cells + length scratch.old.items)) }
    ensures scratch { OnOk result (scratch.new.items ≡ scratch.old.items ++ repeated turns.count (scratch_of_all (bodies_here scope.now) (stmts_view body.now))) }
{
    let control = place_at(scope, turns.control);
    let mut value = turns.first;
    for _ in 0..turns.count {
        let mut turn = Vec::new(alloc);
        put_number(&mut turn, control, value)?;
        flatten_all(body, scope, flags, scratch, &mut turn, alloc)?;
        put_guarded(left, flags, turn, out, alloc)?;
        value += turns.step;
    }
    let mut last = Vec::new(alloc);
    put_number(&mut last, control, value)?;
    put_guarded(left, flags, last, out, alloc)
}

// A body of its own. Where it has a RETURN of its own it has a flag of its own.
#[cycle(flatten)]
fn flatten_body(
    body: &[TypedStmt],
    scope: &FlatScope<'_, '_>,
    flags: Flags,
    scratch: &mut Vec<Scratch>,
    out: &mut Vec<FlatStmt>,
    alloc: Global,
) -> Result<(), AllocError>
    requires known { IsKnown scope.now }
    requires typed { IsTypedOver scope.now (λ pous b. AreTyped pous b (stmts_view body.now)) }
    ensures list { OnOk result (flats_view out.new.items
        ≡ flats_view out.old.items ++ flat_of (bodies_here scope.now) (owner_view scope.now.owner) scope.now.base (flags_view flags) (own_body (stmts_view body.now)) (scope.now.cells + length scratch.old.items)) }
    ensures scratch { OnOk result (scratch.new.items ≡ scratch.old.items ++ scratch_of (bodies_here scope.now) (own_body (stmts_view body.now))) }
{
    let left = leaving_all(body);
    let inner = body_flags(left.returns, flags, scope.cells, scratch, out)?;
    flatten_all(body, scope, inner, scratch, out, alloc)
}
