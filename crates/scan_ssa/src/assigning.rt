// The word that an assignment leaves in its place, and that of a condition.
ghost use Rattle.std.specs.Prelude.{◌≡◌, None, Option, IfOk, IfErr, OnOk, length, slice_index_or};
ghost use Rattle.plc_types.specs.declared.elementary.Elementary.TheVariants as types;
ghost use Rattle.program_tree.specs.View.{expr_view};
ghost use Rattle.flat_core.specs.FlatTree.{set};
ghost use Rattle.node_core.specs.Words.{word_of};
ghost use Rattle.node_core.specs.Stores.{with_fault_of, with_word, tested_word, target_word, set_word, store_of};
ghost use Rattle.scan_ssa.specs.Making.{list_view, IsOver};
ghost use Rattle.scan_ssa.specs.Trails.{Keeps};

use crate::fault::NodeFault;
use crate::held::{Held, word_at};
use crate::making::{add_fault, make};
use crate::nodes::Making;
use crate::places::place_at;
use crate::trail::{Trail, held_at, hold};
use crate::words::word_of;
use node_core::Node;
use plc_types::Elementary;
use program_tree::{Scratch, TypedExpr};
use std::alloc::Global;

/// An assignment.
pub fn assign(
    place: usize,
    expr: &TypedExpr,
    places: &[Scratch],
    making: &mut Making,
    trail: &mut Trail,
    alloc: Global,
) -> Result<(), NodeFault>
    ensures store { OnOk result (trail.new.store.items ≡ (store_of places.now (set place (expr_view expr.now)) trail.old.store.items (list_view making.old)).store) }
    ensures list { OnOk result (list_view making.new ≡ (store_of places.now (set place (expr_view expr.now)) trail.old.store.items (list_view making.old)).list) }
    ensures kept { OnOk result (Keeps (length trail.old.log.items) trail.old trail.new) }
    ensures too_many { IfErr result (λ e. e ≡ NodeFault.TooMany → IsOver making.old.limit (length (store_of places.now (set place (expr_view expr.now)) trail.old.store.items (list_view making.old)).list.nodes)) }
    ensures limit { making.new.limit ≡ making.old.limit }
{
    let held = held_at(trail, place);
    let target = place_at(places, place);
    let word = set_word(making, &trail.store, target, held, expr, alloc)?;
    hold(trail, 0, making.fault)?;
    hold(trail, place, word)?;
    Ok(())
}

// The word that a place gets, which held a word, if any.
fn set_word(
    making: &mut Making,
    store: &[Option<usize>],
    target: Scratch,
    held: Option<usize>,
    expr: &TypedExpr,
    alloc: Global,
) -> Result<usize, NodeFault>
    ensures word { IfOk result (λ w. w ≡ (target_word target held (word_of store.now target.kind (expr_view expr.now) (with_fault_of store.now (list_view making.old))).word (word_of store.now target.kind (expr_view expr.now) (with_fault_of store.now (list_view making.old))).list).word) }
    ensures list { OnOk result (list_view making.new ≡ (target_word target held (word_of store.now target.kind (expr_view expr.now) (with_fault_of store.now (list_view making.old))).word (word_of store.now target.kind (expr_view expr.now) (with_fault_of store.now (list_view making.old))).list).list) }
    ensures too_many { IfErr result (λ e. e ≡ NodeFault.TooMany → IsOver making.old.limit (length (target_word target held (word_of store.now target.kind (expr_view expr.now) (with_fault_of store.now (list_view making.old))).word (word_of store.now target.kind (expr_view expr.now) (with_fault_of store.now (list_view making.old))).list).list.nodes)) }
    ensures limit { making.new.limit ≡ making.old.limit }
{
    let words = Held::Store(store);
    making.fault = word_at(&words, 0);
    let word = word_of(making, &words, target.kind, expr, alloc)?;
    put_into(making, target, held, word)
}

// A word for a place; a subrange that held a word takes only those of its range.
#[tactic(auto, unfolding(node_core::specs::Stores::target_word))]
fn put_into(
    making: &mut Making,
    target: Scratch,
    held: Option<usize>,
    word: usize,
) -> Result<usize, NodeFault>
    ensures word { IfOk result (λ w. w ≡ (target_word target held word (list_view making.old)).word) }
    ensures list { OnOk result (list_view making.new ≡ (target_word target held word (list_view making.old)).list) }
    ensures too_many { IfErr result (λ e. e ≡ NodeFault.TooMany → IsOver making.old.limit (length (target_word target held word (list_view making.old)).list.nodes)) }
    ensures limit { making.new.limit ≡ making.old.limit }
{
    match held {
        None => Ok(word),
        Some(old) => {
            if target.is_subrange {
                test_range(making, target, old, word)
            } else {
                Ok(word)
            }
        }
    }
}

// A word outside of the range is a fault, and leaves the old one.
#[tactic(auto, unfolding(node_core::specs::Stores::tested_word))]
fn test_range(
    making: &mut Making,
    target: Scratch,
    old: usize,
    word: usize,
) -> Result<usize, NodeFault>
    ensures word { IfOk result (λ w. w ≡ (tested_word target old word (list_view making.old)).word) }
    ensures list { OnOk result (list_view making.new ≡ (tested_word target old word (list_view making.old)).list) }
    ensures too_many { IfErr result (λ e. e ≡ NodeFault.TooMany → IsOver making.old.limit (length (tested_word target old word (list_view making.old)).list.nodes)) }
    ensures limit { making.new.limit ≡ making.old.limit }
{
    let outside = make(
        making,
        Node::Outside {
            kind: target.kind,
            range: target.range,
            operand: word,
        },
    )?;
    add_fault(making, outside)?;
    make(
        making,
        Node::Mux {
            kind: target.kind,
            condition: outside,
            on: old,
            off: word,
        },
    )
}

/// A condition: its word, and FAULT's behind it.
pub fn test(
    making: &mut Making,
    trail: &mut Trail,
    expr: &TypedExpr,
    alloc: Global,
) -> Result<usize, NodeFault>
    ensures word { IfOk result (λ w. w ≡ (word_of trail.old.store.items types.Bool (expr_view expr.now) (with_fault_of trail.old.store.items (list_view making.old))).word) }
    ensures store { OnOk result (trail.new.store.items ≡ with_word 0 (word_of trail.old.store.items types.Bool (expr_view expr.now) (with_fault_of trail.old.store.items (list_view making.old))).list.fault trail.old.store.items) }
    ensures list { OnOk result (list_view making.new ≡ (word_of trail.old.store.items types.Bool (expr_view expr.now) (with_fault_of trail.old.store.items (list_view making.old))).list) }
    ensures kept { OnOk result (Keeps (length trail.old.log.items) trail.old trail.new) }
    ensures too_many { IfErr result (λ e. e ≡ NodeFault.TooMany → IsOver making.old.limit (length (word_of trail.old.store.items types.Bool (expr_view expr.now) (with_fault_of trail.old.store.items (list_view making.old))).list.nodes)) }
    ensures limit { making.new.limit ≡ making.old.limit }
{
    let word = test_word(making, &trail.store, expr, alloc)?;
    hold(trail, 0, making.fault)?;
    Ok(word)
}

fn test_word(
    making: &mut Making,
    store: &[Option<usize>],
    expr: &TypedExpr,
    alloc: Global,
) -> Result<usize, NodeFault>
    ensures word { IfOk result (λ w. w ≡ (word_of store.now types.Bool (expr_view expr.now) (with_fault_of store.now (list_view making.old))).word) }
    ensures list { OnOk result (list_view making.new ≡ (word_of store.now types.Bool (expr_view expr.now) (with_fault_of store.now (list_view making.old))).list) }
    ensures too_many { IfErr result (λ e. e ≡ NodeFault.TooMany → IsOver making.old.limit (length (word_of store.now types.Bool (expr_view expr.now) (with_fault_of store.now (list_view making.old))).list.nodes)) }
    ensures limit { making.new.limit ≡ making.old.limit }
{
    let words = Held::Store(store);
    making.fault = word_at(&words, 0);
    word_of(making, &words, Elementary::Bool, expr, alloc)
}
