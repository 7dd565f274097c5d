// The end of an IF: one word for each place that one of its sides changed.
ghost use Rattle.std.specs.Prelude.{◌≡◌, ◌≤◌, ◌++◌, ℕ, None, IfOk, IfErr, OnOk, length, map, slice_set, slice_index_or, Contains};
ghost use Rattle.std.specs.List.Sorted.{IsStrictlyIncreasing};
ghost use Rattle.program_tree.specs.Places.{place_at};
ghost use Rattle.node_core.specs.Words.{word_at};
ghost use Rattle.node_core.specs.Stores.{merged_word, merged};
ghost use Rattle.scan_ssa.specs.Making.{list_view, IsOver};
ghost use Rattle.scan_ssa.specs.Trails.{with_changes, store_at, Keeps};
ghost use Rattle.scan_ssa.specs.Merging.{places_in, one_word, merge_all};

use crate::fault::NodeFault;
use crate::held::{Held, word_at};
use crate::making::make;
use crate::nodes::Making;
use crate::places::place_at;
use crate::trail::{Change, Trail, held_at, hold, set_place, take_back, undo};
use node_core::Node;
use plc_types::Elementary;
use program_tree::Scratch;
use std::alloc::{AllocError, Global};

/// A side of an IF that was run and taken back: its condition's word, how long the log was, and what the side changed.
#[derive(Drop)]
pub struct OpenArm {
    pub condition: usize,
    pub mark: usize,
    pub changes: Vec<Change>,
}

/// The words of an IF, whose one side is open, behind its other side.
pub fn merge(
    making: &mut Making,
    trail: &mut Trail,
    places: &[Scratch],
    arm: &OpenArm,
    alloc: Global,
) -> Result<(), NodeFault>
    requires { arm.now.mark ≤ length trail.old.log.items }
    ensures store { OnOk result (trail.new.store.items
        ≡ (merged places.now arm.now.condition (with_changes arm.now.changes.items (store_at trail.old arm.now.mark)) trail.old.store.items 0 (store_at trail.old arm.now.mark) (list_view making.old)).store) }
    ensures list { OnOk result (list_view making.new
        ≡ (merged places.now arm.now.condition (with_changes arm.now.changes.items (store_at trail.old arm.now.mark)) trail.old.store.items 0 (store_at trail.old arm.now.mark) (list_view making.old)).list) }
    ensures kept { OnOk result (Keeps arm.now.mark trail.old trail.new) }
    ensures too_many { IfErr result (λ e. e ≡ NodeFault.TooMany → IsOver making.old.limit
        (length (merged places.now arm.now.condition (with_changes arm.now.changes.items (store_at trail.old arm.now.mark)) trail.old.store.items 0 (store_at trail.old arm.now.mark) (list_view making.old)).list.nodes)) }
    ensures limit { making.new.limit ≡ making.old.limit }
{
    let otherwise = take_back(trail, arm.mark, alloc)?;
    merge_sides(
        making,
        trail,
        places,
        arm.condition,
        &arm.changes,
        &otherwise,
        alloc,
    )
}

// The words of an IF, whose sides are the changes that they make.
fn merge_sides(
    making: &mut Making,
    trail: &mut Trail,
    places: &[Scratch],
    condition: usize,
    one: &[Change],
    other: &[Change],
    alloc: Global,
) -> Result<(), NodeFault>
    ensures store { OnOk result (trail.new.store.items ≡ (merged places.now condition (with_changes one.now trail.old.store.items) (with_changes other.now trail.old.store.items) 0 trail.old.store.items (list_view making.old)).store) }
    ensures list { OnOk result (list_view making.new ≡ (merged places.now condition (with_changes one.now trail.old.store.items) (with_changes other.now trail.old.store.items) 0 trail.old.store.items (list_view making.old)).list) }
    ensures kept { OnOk result (Keeps (length trail.old.log.items) trail.old trail.new) }
    ensures too_many { IfErr result (λ e. e ≡ NodeFault.TooMany → IsOver making.old.limit (length (merged places.now condition (with_changes one.now trail.old.store.items) (with_changes other.now trail.old.store.items) 0 trail.old.store.items (list_view making.old)).list.nodes)) }
    ensures limit { making.new.limit ≡ making.old.limit }
{
    let touched = touched_places(one, other, alloc)?;
    let on = words_under(trail, one, &touched, alloc)?;
    let off = words_under(trail, other, &touched, alloc)?;
    merge_all(making, trail, places, condition, &touched, &on, &off)
}

// The places of changes, each once, in their order.
fn touched_places(one: &[Change], other: &[Change], alloc: Global) -> Result<Vec<usize>, AllocError>
    ensures rising { IfOk result (λ touched. IsStrictlyIncreasing touched.items) }
    ensures all { IfOk result (λ touched. (p : ℕ) → Contains (places_in one.now ++ places_in other.now) p → Contains touched.items p) }
{
    let mut places = Vec::new(alloc);
    append_places(&mut places, one)?;
    append_places(&mut places, other)?;
    places.sort_unstable();
    places.dedup();
    Ok(places)
}

fn append_places(places: &mut Vec<usize>, changes: &[Change]) -> Result<(), AllocError>
    ensures { OnOk result (places.new.items ≡ places.old.items ++ places_in changes.now) }
{
    for change in changes {
        places.push(change.place)?;
    }
    Ok(())
}

// The words that places hold once some changes are made, which are then taken back.
fn words_under(
    trail: &mut Trail,
    changes: &[Change],
    touched: &[usize],
    alloc: Global,
) -> Result<Vec<usize>, AllocError>
    ensures words { IfOk result (λ words. words.items ≡ map (word_at (with_changes changes.now trail.old.store.items)) touched.now) }
    ensures store { OnOk result (trail.new.store.items ≡ trail.old.store.items) }
    ensures kept { OnOk result (Keeps (length trail.old.log.items) trail.old trail.new) }
{
    let mark = trail.log.len();
    make_changes(trail, changes)?;
    let words = words_at(&trail.store, touched, alloc)?;
    undo(trail, mark);
    Ok(words)
}

fn make_changes(trail: &mut Trail, changes: &[Change]) -> Result<(), AllocError>
    ensures store { OnOk result (trail.new.store.items ≡ with_changes changes.now trail.old.store.items) }
    ensures kept { OnOk result (Keeps (length trail.old.log.items) trail.old trail.new) }
{
    let mut left = changes.len();
    while left > 0 {
        left -= 1;
        let change = changes[left];
        set_place(trail, change.place, change.word)?;
    }
    Ok(())
}

fn words_at(
    store: &[Option<usize>],
    touched: &[usize],
    alloc: Global,
) -> Result<Vec<usize>, AllocError>
    ensures { IfOk result (λ words. words.items ≡ map (word_at store.now) touched.now) }
{
    let held = Held::Store(store);
    let mut words = Vec::new(alloc);
    for place in touched {
        words.push(word_at(&held, *place))?;
    }
    Ok(words)
}

// One word after the other.
fn merge_all(
    making: &mut Making,
    trail: &mut Trail,
    places: &[Scratch],
    condition: usize,
    touched: &[usize],
    on: &[usize],
    off: &[usize],
) -> Result<(), NodeFault>
    requires on { length on.now ≡ length touched.now }
    requires off { length off.now ≡ length touched.now }
    ensures store { OnOk result (trail.new.store.items ≡ (merge_all places.now condition touched.now on.now off.now trail.old.store.items (list_view making.old)).store) }
    ensures list { OnOk result (list_view making.new ≡ (merge_all places.now condition touched.now on.now off.now trail.old.store.items (list_view making.old)).list) }
    ensures kept { OnOk result (Keeps (length trail.old.log.items) trail.old trail.new) }
    ensures too_many { IfErr result (λ e. e ≡ NodeFault.TooMany → IsOver making.old.limit (length (merge_all places.now condition touched.now on.now off.now trail.old.store.items (list_view making.old)).list.nodes)) }
    ensures limit { making.new.limit ≡ making.old.limit }
{
    for i in 0..touched.len() {
        merge_one(making, trail, places, condition, touched[i], on[i], off[i])?;
    }
    Ok(())
}

// One word of two, unless the place held none before.
#[tactic(auto, unfolding(node_core::specs::Stores::merged_word))]
fn merge_one(
    making: &mut Making,
    trail: &mut Trail,
    places: &[Scratch],
    condition: usize,
    place: usize,
    on: usize,
    off: usize,
) -> Result<(), NodeFault>
    ensures store { OnOk result (trail.new.store.items ≡ slice_set trail.old.store.items place (merged_word (place_at places.now place) condition (slice_index_or trail.old.store.items place None) on off (list_view making.old)).0) }
    ensures list { OnOk result (list_view making.new ≡ (merged_word (place_at places.now place) condition (slice_index_or trail.old.store.items place None) on off (list_view making.old)).1) }
    ensures kept { OnOk result (Keeps (length trail.old.log.items) trail.old trail.new) }
    ensures too_many { IfErr result (λ e. e ≡ NodeFault.TooMany → IsOver making.old.limit (length (merged_word (place_at places.now place) condition (slice_index_or trail.old.store.items place None) on off (list_view making.old)).1.nodes)) }
    ensures limit { making.new.limit ≡ making.old.limit }
{
    let Some(_) = held_at(trail, place) else {
        return Ok(());
    };
    let kind = place_at(places, place).kind;
    let word = choose(making, kind, condition, on, off)?;
    hold(trail, place, word)?;
    Ok(())
}

// A word where a condition is TRUE, and one where it is not; the same where they are one.
fn choose(
    making: &mut Making,
    kind: Elementary,
    condition: usize,
    on: usize,
    off: usize,
) -> Result<usize, NodeFault>
    ensures word { IfOk result (λ w. w ≡ (one_word kind condition on off (list_view making.old)).word) }
    ensures list { OnOk result (list_view making.new ≡ (one_word kind condition on off (list_view making.old)).list) }
    ensures too_many { IfErr result (λ e. e ≡ NodeFault.TooMany → IsOver making.old.limit (length (one_word kind condition on off (list_view making.old)).list.nodes)) }
    ensures limit { making.new.limit ≡ making.old.limit }
{
    if on == off {
        return Ok(on);
    }
    make(
        making,
        Node::Mux {
            kind,
            condition,
            on,
            off,
        },
    )
}
