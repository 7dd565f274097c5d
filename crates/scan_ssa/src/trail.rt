// The words that places hold, with what was changed, so that it can be taken back.
ghost use Rattle.std.specs.Prelude.{◌≡◌, ◌≤◌, None, IfOk, OnOk, length, take, slice_set, slice_index_or};
ghost use Rattle.node_core.specs.Stores.{with_word};
ghost use Rattle.scan_ssa.specs.Trails.{with_changes, store_at, Keeps};

use std::alloc::{AllocError, Global};

/// A place, and the word that it is to hold, if any.
#[derive(Clone, Copy)]
pub struct Change {
    pub place: usize,
    pub word: Option<usize>,
}

/// The words that the places hold, and a log of what they held before each change, so that an IF costs what it changes, and no copy of
/// the store.
#[derive(Drop)]
pub struct Trail {
    pub store: Vec<Option<usize>>,
    pub log: Vec<Change>,
}

/// The word that a place holds, if it does.
pub fn held_at(trail: &Trail, place: usize) -> Option<usize>
    ensures { result ≡ slice_index_or trail.now.store.items place None }
{
    if place < trail.store.len() {
        trail.store[place]
    } else {
        None
    }
}

/// A place changes; a place that is none of the store's does not.
pub fn set_place(trail: &mut Trail, place: usize, word: Option<usize>) -> Result<(), AllocError>
    ensures store { OnOk result (trail.new.store.items ≡ slice_set trail.old.store.items place word) }
    ensures kept { OnOk result (Keeps (length trail.old.log.items) trail.old trail.new) }
{
    if place < trail.store.len() {
        let before = trail.store[place];
        trail.log.push(Change {
            place,
            word: before,
        })?;
        trail.store[place] = word;
    }
    Ok(())
}

/// A place holds a word from now on.
pub fn hold(trail: &mut Trail, place: usize, word: usize) -> Result<(), AllocError>
    ensures store { OnOk result (trail.new.store.items ≡ with_word place word trail.old.store.items) }
    ensures kept { OnOk result (Keeps (length trail.old.log.items) trail.old trail.new) }
{
    set_place(trail, place, Some(word))
}

/// Takes back what was changed since a mark, and gives the changes that do it again.
pub fn take_back(trail: &mut Trail, mark: usize, alloc: Global) -> Result<Vec<Change>, AllocError>
    requires { mark ≤ length trail.old.log.items }
    ensures store { OnOk result (trail.new.store.items ≡ store_at trail.old mark) }
    ensures log { OnOk result (trail.new.log.items ≡ take mark trail.old.log.items) }
    ensures changes { IfOk result (λ changes. with_changes changes.items (store_at trail.old mark) ≡ trail.old.store.items) }
{
    let mut changes = Vec::new(alloc);
    while trail.log.len() > mark {
        if let Some(last) = trail.log.pop() {
            changes.push(Change {
                place: last.place,
                word: held_at(trail, last.place),
            })?;
            put(trail, last);
        }
    }
    Ok(changes)
}

/// Takes back what was changed since a mark.
pub fn undo(trail: &mut Trail, mark: usize)
    requires { mark ≤ length trail.old.log.items }
    ensures store { trail.new.store.items ≡ store_at trail.old mark }
    ensures log { trail.new.log.items ≡ take mark trail.old.log.items }
{
    while trail.log.len() > mark {
        if let Some(last) = trail.log.pop() {
            put(trail, last);
        }
    }
}

// A change that is not logged.
fn put(trail: &mut Trail, change: Change)
    ensures store { trail.new.store.items ≡ slice_set trail.old.store.items change.place change.word }
    ensures log { trail.new.log ≡ trail.old.log }
{
    if change.place < trail.store.len() {
        trail.store[change.place] = change.word;
    }
}
