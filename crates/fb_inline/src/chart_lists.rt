// The flat statements of a chart that its steps and latches alone become.
ghost use Rattle.std.specs.Prelude.{◌≡◌, ◌<◌, ◌^◌, ◌+◌, ◌*◌, ◌++◌, ◌∷◌, [], length, map, pos, All, IfOk, IfSome, OnOk};
ghost use Rattle.program_tree.specs.Tree.{number};
ghost use Rattle.program_tree.specs.View.{action_view, actions_view};
ghost use Rattle.program_tree.specs.ChartPlaces.{latch_places};
ghost use Rattle.flat_core.specs.FlatTree.{set};
ghost use Rattle.flat_core.specs.FlatView.{flats_view};
ghost use Rattle.flat_charts.specs.Views.{owner_view, HasPlace, StepsHavePlaces, FlagsHavePlaces};
ghost use Rattle.flat_form.specs.FlatCharts.{latch_set, latch_list, flag_cell, flags_of, clear_flags, exited_flag, exited_set, entered_set, fired_list, mark_before, mark_active, mark_list};

use crate::puts::{new_scratch, put_number, put_set, whole_cell};
use flat_charts::{
    FlatScope, cell_at, exited_flag, joined, latch_test, own_cell, place_at, without,
};
use flat_core::FlatStmt;
use plc_types::{Elementary, Operator};
use program_tree::{Scratch, StepCells, TypedAction};
use std::alloc::{AllocError, Global};

/// Sets the latches of actions.
pub fn put_latches(
    actions: &[TypedAction],
    steps: &[StepCells],
    scope: &FlatScope<'_, '_>,
    out: &mut Vec<FlatStmt>,
    alloc: Global,
) -> Result<(), AllocError>
    requires steps { StepsHavePlaces scope.now.base steps.now }
    requires latches { All (HasPlace scope.now.base) (latch_places (actions_view actions.now)) }
    ensures { OnOk result (flats_view out.new.items
        ≡ flats_view out.old.items ++ latch_list (owner_view scope.now.owner) scope.now.base steps.now (actions_view actions.now)) }
{
    for action in actions {
        put_latch(action, steps, scope, out, alloc)?;
    }
    Ok(())
}

fn put_latch(
    action: &TypedAction,
    steps: &[StepCells],
    scope: &FlatScope<'_, '_>,
    out: &mut Vec<FlatStmt>,
    alloc: Global,
) -> Result<(), AllocError>
    requires steps { StepsHavePlaces scope.now.base steps.now }
    requires latch { IfSome (action_view action.now).0 (HasPlace scope.now.base) }
    ensures { OnOk result (flats_view out.new.items
        ≡ flats_view out.old.items ++ latch_set (owner_view scope.now.owner) scope.now.base steps.now (action_view action.now).0 (action_view action.now).1) }
{
    if let Some(latch) = action.latch {
        let test = latch_test(alloc, latch, &action.associations, steps, scope)?;
        let there = place_at(scope, latch);
        put_set(out, there, test)?;
    }
    Ok(())
}

/// Makes two flags for each step, which a transition sets that leaves or enters it, and clears them; the place of the first.
pub fn put_flags(
    steps: &[StepCells],
    cells: usize,
    scratch: &mut Vec<Scratch>,
    out: &mut Vec<FlatStmt>,
) -> Result<usize, AllocError>
    requires { cells < 2 ^ 63 }
    ensures place { IfOk result (λ place. place ≡ cells + length scratch.old.items) }
    ensures room { IfOk result (λ place. place + 2 * length steps.now < 2 ^ 64) }
    ensures list { OnOk result (flats_view out.new.items ≡ flats_view out.old.items ++ clear_flags steps.now (cells + length scratch.old.items)) }
    ensures scratch { OnOk result (scratch.new.items ≡ scratch.old.items ++ flags_of steps.now) }
{
    let first = cells + scratch.len();
    for _ in steps {
        put_flag(cells, scratch, out)?;
        put_flag(cells, scratch, out)?;
    }
    Ok(first)
}

fn put_flag(
    cells: usize,
    scratch: &mut Vec<Scratch>,
    out: &mut Vec<FlatStmt>,
) -> Result<(), AllocError>
    requires { cells < 2 ^ 63 }
    ensures list { OnOk result (flats_view out.new.items ≡ flats_view out.old.items ++ set (cells + length scratch.old.items) (number (pos 0)) ∷ []) }
    ensures scratch { OnOk result (scratch.new.items ≡ scratch.old.items ++ flag_cell ∷ []) }
{
    let place = new_scratch(whole_cell(Elementary::Bool), cells, scratch)?;
    put_number(out, place, 0)
}

/// Sets the flags of the steps that a transition leaves, and of those that it enters.
pub fn put_fired(
    from: &[usize],
    to: &[usize],
    flags: usize,
    out: &mut Vec<FlatStmt>,
) -> Result<(), AllocError>
    requires from { FlagsHavePlaces flags from.now }
    requires to { FlagsHavePlaces flags to.now }
    ensures { OnOk result (flats_view out.new.items ≡ flats_view out.old.items ++ fired_list flags from.now to.now) }
{
    put_exited(from, flags, out)?;
    put_entered(to, flags, out)?;
    Ok(())
}

fn put_exited(list: &[usize], flags: usize, out: &mut Vec<FlatStmt>) -> Result<(), AllocError>
    requires { FlagsHavePlaces flags list.now }
    ensures { OnOk result (flats_view out.new.items ≡ flats_view out.old.items ++ map (exited_set flags) list.now) }
{
    for step in list {
        let flag = exited_flag(flags, *step);
        put_number(out, flag, 1)?;
    }
    Ok(())
}

fn put_entered(list: &[usize], flags: usize, out: &mut Vec<FlatStmt>) -> Result<(), AllocError>
    requires { FlagsHavePlaces flags list.now }
    ensures { OnOk result (flats_view out.new.items ≡ flats_view out.old.items ++ map (entered_set flags) list.now) }
{
    for step in list {
        let exited = exited_flag(flags, *step);
        put_number(out, exited + 1, 1)?;
    }
    Ok(())
}

/// Sets the cells of steps by their flags, the first of which stands at a place.
pub fn put_marks(
    steps: &[StepCells],
    flags: usize,
    scope: &FlatScope<'_, '_>,
    out: &mut Vec<FlatStmt>,
    alloc: Global,
) -> Result<(), AllocError>
    requires steps { StepsHavePlaces scope.now.base steps.now }
    requires flags { flags + 2 * length steps.now < 2 ^ 64 }
    ensures { OnOk result (flats_view out.new.items
        ≡ flats_view out.old.items ++ mark_list (owner_view scope.now.owner) scope.now.base steps.now flags) }
{
    let mut flag = flags;
    for step in steps {
        put_mark(*step, flag, scope, out, alloc)?;
        flag += 2;
    }
    Ok(())
}

fn put_mark(
    step: StepCells,
    exited: usize,
    scope: &FlatScope<'_, '_>,
    out: &mut Vec<FlatStmt>,
    alloc: Global,
) -> Result<(), AllocError>
    requires active { HasPlace scope.now.base step.active }
    requires before { HasPlace scope.now.base step.before }
    requires flags { exited + 1 < 2 ^ 64 }
    ensures { OnOk result (flats_view out.new.items ≡ flats_view out.old.items
        ++ mark_before (owner_view scope.now.owner) scope.now.base step ∷ mark_active (owner_view scope.now.owner) scope.now.base step exited ∷ []) }
{
    let entered = exited + 1;
    let before = place_at(scope, step.before);
    let active = place_at(scope, step.active);
    put_set(out, before, cell_at(active))?;
    let stays = without(alloc, cell_at(active), cell_at(exited))?;
    let next = joined(
        alloc,
        stays,
        Operator::Or,
        Elementary::Bool,
        cell_at(entered),
    )?;
    put_set(out, active, next)
}
