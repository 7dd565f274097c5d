// The words that flat statements leave.
ghost use Rattle.std.specs.Prelude.{◌≡◌, ◌≤◌, ◌++◌, ◌∷◌, [], ℕ, List, IfOk, IfErr, OnOk, length};
ghost use Rattle.flat_core.specs.FlatTree.{FlatStatement};
ghost use Rattle.flat_core.specs.FlatView.{flat_view, flats_view, flat_arm_view, flat_arms_view, flats_of, nested};
ghost use Rattle.node_core.specs.Stores.{store_of_all};
ghost use Rattle.scan_ssa.specs.Making.{list_view, IsOver};
ghost use Rattle.scan_ssa.specs.Trails.{Keeps};
ghost use Rattle.scan_ssa.specs.OpenArms.{opened, open_view, open_views, AreMarks, closed};

use crate::assigning::{assign, test};
use crate::fault::NodeFault;
use crate::merging::{OpenArm, merge};
use crate::nodes::Making;
use crate::trail::{Trail, take_back};
use flat_core::{FlatArm, FlatStmt};
use program_tree::Scratch;
use std::alloc::Global;

/// The words that statements leave, one behind the other.
#[cycle(scan)]
pub fn run_all(
    list: &[FlatStmt],
    places: &[Scratch],
    making: &mut Making,
    trail: &mut Trail,
    alloc: Global,
) -> Result<(), NodeFault>
    ensures store { OnOk result (trail.new.store.items ≡ (store_of_all places.now (flats_of (flats_view list.now)) trail.old.store.items (list_view making.old)).store) }
    ensures list { OnOk result (list_view making.new ≡ (store_of_all places.now (flats_of (flats_view list.now)) trail.old.store.items (list_view making.old)).list) }
    ensures kept { OnOk result (Keeps (length trail.old.log.items) trail.old trail.new) }
    ensures too_many { IfErr result (λ e. e ≡ NodeFault.TooMany → IsOver making.old.limit (length (store_of_all places.now (flats_of (flats_view list.now)) trail.old.store.items (list_view making.old)).list.nodes)) }
    ensures limit { making.new.limit ≡ making.old.limit }
{
    for stmt in list {
        run_one(stmt, places, making, trail, alloc)?;
    }
    Ok(())
}

// One statement. The sides of an IF where a condition is TRUE are run and taken back, one after the other, and closed from the last to
// the first.
#[cycle(scan)]
fn run_one(
    stmt: &FlatStmt,
    places: &[Scratch],
    making: &mut Making,
    trail: &mut Trail,
    alloc: Global,
) -> Result<(), NodeFault>
    ensures store { OnOk result (trail.new.store.items ≡ (store_of_all places.now (flats_of (flat_view stmt.now)) trail.old.store.items (list_view making.old)).store) }
    ensures list { OnOk result (list_view making.new ≡ (store_of_all places.now (flats_of (flat_view stmt.now)) trail.old.store.items (list_view making.old)).list) }
    ensures kept { OnOk result (Keeps (length trail.old.log.items) trail.old trail.new) }
    ensures too_many { IfErr result (λ e. e ≡ NodeFault.TooMany → IsOver making.old.limit (length (store_of_all places.now (flats_of (flat_view stmt.now)) trail.old.store.items (list_view making.old)).list.nodes)) }
    ensures limit { making.new.limit ≡ making.old.limit }
{
    match stmt {
        FlatStmt::Set(place, expr) => assign(*place, expr, places, making, trail, alloc),
        FlatStmt::If(arms, rest) => {
            let sides = open_arms(arms, places, making, trail, alloc)?;
            run_all(rest, places, making, trail, alloc)?;
            close_arms(sides, places, making, trail, alloc)
        }
    }
}

// Whatever stands behind the arms, closing them behind it gives all.
#[cycle(scan)]
fn open_arms(
    arms: &[FlatArm],
    places: &[Scratch],
    making: &mut Making,
    trail: &mut Trail,
    alloc: Global,
) -> Result<Vec<OpenArm>, NodeFault>
    ensures rest { IfOk result (λ os. (rest : List FlatStatement) → closed places.now (open_views trail.new os.items) (store_of_all places.now (flats_of rest) trail.new.store.items (list_view making.new))
        ≡ store_of_all places.now (flats_of (nested (flat_arms_view arms.now) rest)) trail.old.store.items (list_view making.old)) }
    ensures marks { IfOk result (λ os. AreMarks (length trail.old.log.items) os.items (length trail.new.log.items)) }
    ensures kept { OnOk result (Keeps (length trail.old.log.items) trail.old trail.new) }
    ensures too_many { IfErr result (λ e. e ≡ NodeFault.TooMany → (rest : List FlatStatement) → IsOver making.old.limit (length (store_of_all places.now (flats_of (nested (flat_arms_view arms.now) rest)) trail.old.store.items (list_view making.old)).list.nodes)) }
    ensures limit { making.new.limit ≡ making.old.limit }
{
    let mut sides = Vec::new(alloc);
    for arm in arms {
        let next = open_arm(arm, places, making, trail, alloc)?;
        let Ok(()) = sides.push(next) else {
            return Err(NodeFault::Memory);
        };
    }
    Ok(sides)
}

// What runs before a condition, the condition, and the statements behind it, which are taken back.
#[cycle(scan)]
fn open_arm(
    arm: &FlatArm,
    places: &[Scratch],
    making: &mut Making,
    trail: &mut Trail,
    alloc: Global,
) -> Result<OpenArm, NodeFault>
    ensures arm { IfOk result (λ o. open_view trail.new o ≡ (opened places.now (flat_arm_view arm.now) trail.old.store.items (list_view making.old)).arm) }
    ensures begun { IfOk result (λ o. length trail.old.log.items ≤ o.mark) }
    ensures ended { IfOk result (λ o. o.mark ≤ length trail.new.log.items) }
    ensures store { OnOk result (trail.new.store.items ≡ (opened places.now (flat_arm_view arm.now) trail.old.store.items (list_view making.old)).arm.begun) }
    ensures list { OnOk result (list_view making.new ≡ (opened places.now (flat_arm_view arm.now) trail.old.store.items (list_view making.old)).list) }
    ensures kept { OnOk result (Keeps (length trail.old.log.items) trail.old trail.new) }
    ensures too_many { IfErr result (λ e. e ≡ NodeFault.TooMany → IsOver making.old.limit (length (opened places.now (flat_arm_view arm.now) trail.old.store.items (list_view making.old)).list.nodes)) }
    ensures limit { making.new.limit ≡ making.old.limit }
{
    run_all(&arm.before, places, making, trail, alloc)?;
    let condition = test(making, trail, &arm.condition, alloc)?;
    let mark = trail.log.len();
    run_all(&arm.body, places, making, trail, alloc)?;
    let changes = take_back(trail, mark, alloc)?;
    Ok(OpenArm {
        condition,
        mark,
        changes,
    })
}

// The sides that are open are closed, the last of them first.
fn close_arms(
    mut sides: Vec<OpenArm>,
    places: &[Scratch],
    making: &mut Making,
    trail: &mut Trail,
    alloc: Global,
) -> Result<(), NodeFault>
    requires { AreMarks 0 sides.items (length trail.old.log.items) }
    ensures store { OnOk result (trail.new.store.items ≡ (closed places.now (open_views trail.old sides.items) (record { store = trail.old.store.items; list = list_view making.old })).store) }
    ensures list { OnOk result (list_view making.new ≡ (closed places.now (open_views trail.old sides.items) (record { store = trail.old.store.items; list = list_view making.old })).list) }
    ensures kept { OnOk result ((low : ℕ) → AreMarks low sides.items (length trail.old.log.items) → Keeps low trail.old trail.new) }
    ensures too_many { IfErr result (λ e. e ≡ NodeFault.TooMany → IsOver making.old.limit (length (closed places.now (open_views trail.old sides.items) (record { store = trail.old.store.items; list = list_view making.old })).list.nodes)) }
    ensures limit { making.new.limit ≡ making.old.limit }
{
    while let Some(arm) = sides.pop() {
        merge(making, trail, places, &arm, alloc)?;
    }
    Ok(())
}
