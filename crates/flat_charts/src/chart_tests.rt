// Tests of a chart, by the cells of its steps.
ghost use Rattle.std.specs.Prelude.{◌≡◌, ◌<◌, ◌^◌, ◌+◌, ◌++◌, map, slice_index_or, IfOk, IfSome, OnOk};
ghost use Rattle.program_tree.specs.Tree.{cell};
ghost use Rattle.program_tree.specs.View.{expr_view, operand_view};
ghost use Rattle.meaning.specs.Charts.{is_set, is_reset};
ghost use Rattle.flat_charts.specs.Views.{owner_view, HasPlace, StepsHavePlaces, FlagsHavePlaces};
ghost use Rattle.flat_form.specs.FlatCharts.{joining, joined_by, no_step, active_at, before_at, steps_that, unless_reset, latch_test, asking, terms, latch_start, runs_test, exited_flag, ready_term, ready_test};

use crate::joins::{joined_to, put_operand, without};
use crate::places::{cell_at, place_at};
use crate::scope::FlatScope;
use plc_types::Operator;
use program_tree::{Association, Operand, Qualifier, StepCells, TypedExpr};
use std::alloc::{AllocError, Global};

const NO_STEP: StepCells = StepCells {
    active: 0,
    before: 0,
};

fn step_at(steps: &[StepCells], step: usize) -> StepCells
    ensures { result ≡ slice_index_or steps.now step no_step }
{
    steps.get(step).copied().unwrap_or(NO_STEP)
}

/// The value of a POU's cell.
pub fn own_cell(scope: &FlatScope<'_, '_>, place: usize) -> TypedExpr
    requires { HasPlace scope.now.base place }
    ensures { expr_view result ≡ cell (owner_view scope.now.owner (scope.now.base + place)) }
{
    cell_at(place_at(scope, place))
}

// Whether a step is active.
fn active_at(step: usize, steps: &[StepCells], scope: &FlatScope<'_, '_>) -> TypedExpr
    requires { StepsHavePlaces scope.now.base steps.now }
    ensures { expr_view result ≡ active_at (owner_view scope.now.owner) scope.now.base steps.now step }
{
    let cells = step_at(steps, step);
    own_cell(scope, cells.active)
}

// Whether a step was active where the run before this one started.
fn before_at(step: usize, steps: &[StepCells], scope: &FlatScope<'_, '_>) -> TypedExpr
    requires { StepsHavePlaces scope.now.base steps.now }
    ensures { expr_view result ≡ before_at (owner_view scope.now.owner) scope.now.base steps.now step }
{
    let cells = step_at(steps, step);
    own_cell(scope, cells.before)
}

// The steps that set an action's latch.
fn setting(alloc: Global, associations: &[Association]) -> Result<Vec<usize>, AllocError>
    ensures { IfOk result (λ list. list.items ≡ steps_that is_set associations.now) }
{
    let mut list = Vec::new(alloc);
    for association in associations {
        if let Qualifier::Set = association.qualifier {
            list.push(association.step)?;
        }
    }
    Ok(list)
}

// The steps that reset an action.
fn resetting(alloc: Global, associations: &[Association]) -> Result<Vec<usize>, AllocError>
    ensures { IfOk result (λ list. list.items ≡ steps_that is_reset associations.now) }
{
    let mut list = Vec::new(alloc);
    for association in associations {
        if let Qualifier::Reset = association.qualifier {
            list.push(association.step)?;
        }
    }
    Ok(list)
}

// Whether something is TRUE, or one of some steps is active.
fn or_active(
    alloc: Global,
    first: TypedExpr,
    list: &[usize],
    steps: &[StepCells],
    scope: &FlatScope<'_, '_>,
) -> Result<TypedExpr, AllocError>
    requires { StepsHavePlaces scope.now.base steps.now }
    ensures { IfOk result (λ e. expr_view e
        ≡ joined_by Operator.Or (expr_view first) (map (active_at (owner_view scope.now.owner) scope.now.base steps.now) list.now)) }
{
    let others = active_operands(alloc, list, steps, scope)?;
    joined_to(alloc, first, others)
}

fn active_operands(
    alloc: Global,
    list: &[usize],
    steps: &[StepCells],
    scope: &FlatScope<'_, '_>,
) -> Result<Vec<Operand>, AllocError>
    requires { StepsHavePlaces scope.now.base steps.now }
    ensures { IfOk result (λ os. map operand_view os.items
        ≡ map (λ i. joining Operator.Or (active_at (owner_view scope.now.owner) scope.now.base steps.now i)) list.now) }
{
    let mut operands = Vec::new(alloc);
    for step in list {
        let right = active_at(*step, steps, scope);
        put_operand(&mut operands, Operator::Or, right)?;
    }
    Ok(operands)
}

// What holds, and no step of these is active, which reset an action.
fn unless_reset(
    alloc: Global,
    expr: TypedExpr,
    list: &[usize],
    steps: &[StepCells],
    scope: &FlatScope<'_, '_>,
) -> Result<TypedExpr, AllocError>
    requires { StepsHavePlaces scope.now.base steps.now }
    ensures { IfOk result (λ e. expr_view e
        ≡ unless_reset (expr_view expr) (map (active_at (owner_view scope.now.owner) scope.now.base steps.now) list.now)) }
{
    match list {
        [] => Ok(expr),
        [first, others @ ..] => {
            let first = active_at(*first, steps, scope);
            let reset = or_active(alloc, first, others, steps, scope)?;
            without(alloc, expr, reset)
        }
    }
}

/// What an action's latch becomes.
pub fn latch_test(
    alloc: Global,
    latch: usize,
    associations: &[Association],
    steps: &[StepCells],
    scope: &FlatScope<'_, '_>,
) -> Result<TypedExpr, AllocError>
    requires latch { HasPlace scope.now.base latch }
    requires steps { StepsHavePlaces scope.now.base steps.now }
    ensures { IfOk result (λ e. expr_view e ≡ latch_test (owner_view scope.now.owner) scope.now.base steps.now latch associations.now) }
{
    let sets = setting(alloc, associations)?;
    let resets = resetting(alloc, associations)?;
    let first = own_cell(scope, latch);
    let set = or_active(alloc, first, &sets, steps, scope)?;
    unless_reset(alloc, set, &resets, steps, scope)
}

/// Whether an action runs.
pub fn runs_test(
    alloc: Global,
    latch: Option<usize>,
    associations: &[Association],
    steps: &[StepCells],
    scope: &FlatScope<'_, '_>,
) -> Result<TypedExpr, AllocError>
    requires latch { IfSome latch (HasPlace scope.now.base) }
    requires steps { StepsHavePlaces scope.now.base steps.now }
    ensures { IfOk result (λ e. expr_view e ≡ runs_test (owner_view scope.now.owner) scope.now.base steps.now latch associations.now) }
{
    let resets = resetting(alloc, associations)?;
    let first = latch_start(latch, scope);
    let asked = or_terms(alloc, first, associations, steps, scope)?;
    unless_reset(alloc, asked, &resets, steps, scope)
}

fn latch_start(latch: Option<usize>, scope: &FlatScope<'_, '_>) -> TypedExpr
    requires { IfSome latch (HasPlace scope.now.base) }
    ensures { expr_view result ≡ latch_start (owner_view scope.now.owner) scope.now.base latch }
{
    match latch {
        None => TypedExpr::Number(0),
        Some(place) => own_cell(scope, place),
    }
}

// Whether something is TRUE, or an association asks for the action.
fn or_terms(
    alloc: Global,
    first: TypedExpr,
    associations: &[Association],
    steps: &[StepCells],
    scope: &FlatScope<'_, '_>,
) -> Result<TypedExpr, AllocError>
    requires { StepsHavePlaces scope.now.base steps.now }
    ensures { IfOk result (λ e. expr_view e
        ≡ joined_by Operator.Or (expr_view first) (terms (owner_view scope.now.owner) scope.now.base steps.now associations.now)) }
{
    let others = terms(alloc, associations, steps, scope)?;
    joined_to(alloc, first, others)
}

fn terms(
    alloc: Global,
    associations: &[Association],
    steps: &[StepCells],
    scope: &FlatScope<'_, '_>,
) -> Result<Vec<Operand>, AllocError>
    requires { StepsHavePlaces scope.now.base steps.now }
    ensures { IfOk result (λ os. map operand_view os.items
        ≡ map (joining Operator.Or) (terms (owner_view scope.now.owner) scope.now.base steps.now associations.now)) }
{
    let mut operands = Vec::new(alloc);
    for association in associations {
        put_asking(alloc, *association, steps, scope, &mut operands)?;
    }
    Ok(operands)
}

fn put_asking(
    alloc: Global,
    association: Association,
    steps: &[StepCells],
    scope: &FlatScope<'_, '_>,
    operands: &mut Vec<Operand>,
) -> Result<(), AllocError>
    requires { StepsHavePlaces scope.now.base steps.now }
    ensures { OnOk result (map operand_view operands.new.items ≡ map operand_view operands.old.items
        ++ map (joining Operator.Or) (asking association.qualifier (active_at (owner_view scope.now.owner) scope.now.base steps.now association.step)
        (before_at (owner_view scope.now.owner) scope.now.base steps.now association.step))) }
{
    let now = active_at(association.step, steps, scope);
    let before = before_at(association.step, steps, scope);
    match association.qualifier {
        Qualifier::NonStored => put_operand(operands, Operator::Or, now),
        Qualifier::Set => Ok(()),
        Qualifier::Reset => Ok(()),
        Qualifier::Pulse => {
            let right = without(alloc, now, before)?;
            put_operand(operands, Operator::Or, right)
        }
        Qualifier::FallingPulse => {
            let right = without(alloc, before, now)?;
            put_operand(operands, Operator::Or, right)
        }
    }
}

/// Whether a transition may fire, which leaves steps; the flags of steps begin at a place.
pub fn ready_test(
    alloc: Global,
    from: &[usize],
    flags: usize,
    steps: &[StepCells],
    scope: &FlatScope<'_, '_>,
) -> Result<TypedExpr, AllocError>
    requires from { FlagsHavePlaces flags from.now }
    requires steps { StepsHavePlaces scope.now.base steps.now }
    ensures { IfOk result (λ e. expr_view e ≡ ready_test (owner_view scope.now.owner) scope.now.base steps.now flags from.now) }
{
    match from {
        [] => Ok(TypedExpr::Number(1)),
        [first, others @ ..] => {
            let first = ready_term(alloc, *first, flags, steps, scope)?;
            and_ready(alloc, first, others, flags, steps, scope)
        }
    }
}

fn and_ready(
    alloc: Global,
    first: TypedExpr,
    from: &[usize],
    flags: usize,
    steps: &[StepCells],
    scope: &FlatScope<'_, '_>,
) -> Result<TypedExpr, AllocError>
    requires from { FlagsHavePlaces flags from.now }
    requires steps { StepsHavePlaces scope.now.base steps.now }
    ensures { IfOk result (λ e. expr_view e
        ≡ joined_by Operator.And (expr_view first) (map (ready_term (owner_view scope.now.owner) scope.now.base steps.now flags) from.now)) }
{
    let others = ready_operands(alloc, from, flags, steps, scope)?;
    joined_to(alloc, first, others)
}

fn ready_operands(
    alloc: Global,
    from: &[usize],
    flags: usize,
    steps: &[StepCells],
    scope: &FlatScope<'_, '_>,
) -> Result<Vec<Operand>, AllocError>
    requires from { FlagsHavePlaces flags from.now }
    requires steps { StepsHavePlaces scope.now.base steps.now }
    ensures { IfOk result (λ os. map operand_view os.items
        ≡ map (λ i. joining Operator.And (ready_term (owner_view scope.now.owner) scope.now.base steps.now flags i)) from.now) }
{
    let mut operands = Vec::new(alloc);
    for step in from {
        let right = ready_term(alloc, *step, flags, steps, scope)?;
        put_operand(&mut operands, Operator::And, right)?;
    }
    Ok(operands)
}

fn ready_term(
    alloc: Global,
    step: usize,
    flags: usize,
    steps: &[StepCells],
    scope: &FlatScope<'_, '_>,
) -> Result<TypedExpr, AllocError>
    requires flag { exited_flag flags step < 2 ^ 64 }
    requires steps { StepsHavePlaces scope.now.base steps.now }
    ensures { IfOk result (λ e. expr_view e ≡ ready_term (owner_view scope.now.owner) scope.now.base steps.now flags step) }
{
    let active = active_at(step, steps, scope);
    let flag = exited_flag(flags, step);
    without(alloc, active, cell_at(flag))
}

/// Where the flag stands that says whether a transition left a step. The one that says whether a transition entered it stands behind it.
pub fn exited_flag(flags: usize, step: usize) -> usize
    requires { exited_flag flags step < 2 ^ 64 }
    ensures { result ≡ exited_flag flags step }
{
    flags + 2 * step
}
