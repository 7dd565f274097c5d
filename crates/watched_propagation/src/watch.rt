// Which literals a clause watches, and the watches of a literal.

ghost use Rattle.std.specs.Prelude.{◌≡◌, ◌<◌, ◌++◌, ◌∷◌, [], length, replicate, slice_set, IsTrue, IfOk, IfNone, IfSome, OnErr, OnOk};
ghost use Rattle.std.specs.List.{swap_remove};
ghost use Rattle.watched_propagation.specs.Watching.{IsWatch, list_in, no_watch};
ghost use Rattle.watched_propagation.specs.Visits.{IsOther};

use std::alloc::{AllocError, Global};
use std::marker::Model;

/// The two literals that a clause watches, by their ranks. Where both are the same it watches none.
#[derive(Clone, Copy)]
pub(crate) struct Pair {
    pub first: u32,
    pub second: u32,
    /// The place in the clause where the next search for another literal begins. Any place will do.
    pub next: u32,
}

impl Pair {
    /// No literals.
    pub const NONE: Pair = Pair {
        first: 0,
        second: 0,
        next: 0,
    };
}

/// A clause that watches a literal, by its place, and another literal of it: where that one is true the
/// clause need not be looked at.
#[derive(Clone, Copy)]
pub(crate) struct Watch {
    pub clause: u32,
    pub blocker: u32,
    /// Whether the clause has no literals but these two: then it need not be looked at in any case.
    pub is_short: bool,
}

/// The watches of a literal. Contracts see the list of them.
#[derive(Drop)]
pub(crate) struct WatchList {
    watches: Vec<Watch>,
}

impl Model for WatchList {
    ghost use Rattle.std.specs.Prelude.{List};
    ghost use Rattle.watched_propagation.specs.declared.watch.Watch.{Watch};

    ghost Value = { List Watch };

    ghost view = { λ l. l.watches.items };
}

impl WatchList {
    fn new(alloc: Global) -> WatchList
        ensures { result ≡ [] }
    {
        WatchList {
            watches: Vec::new(alloc),
        }
    }

    /// The watches in their order.
    #[inline(always)]
    pub fn as_slice(&self) -> &[Watch]
        ensures { result.now ≡ self.now }
    {
        self.watches.as_slice()
    }

    /// Adds a watch.
    #[inline(always)]
    fn push(&mut self, watch: Watch) -> Result<(), AllocError>
        ensures ok { OnOk result (self.new ≡ self.old ++ watch ∷ []) }
        ensures err { OnErr result (self.new ≡ self.old) }
    {
        match self.watches.push(watch) {
            Ok(()) => Ok(()),
            Err(_) => Err(AllocError),
        }
    }

    /// Puts a watch in the place of another.
    #[inline(always)]
    fn set(&mut self, place: usize, watch: Watch)
        requires { place < length self.old }
        ensures { self.new ≡ slice_set self.old place watch }
    {
        self.watches[place] = watch;
    }

    /// Takes a watch out; the last one takes its place.
    #[inline(always)]
    fn remove(&mut self, place: usize)
        requires { place < length self.old }
        ensures { self.new ≡ swap_remove self.old place no_watch }
    {
        let _ = self.watches.swap_remove(place);
    }
}

/// As many lists, all empty.
pub(crate) fn watch_lists(alloc: Global, count: usize) -> Result<Vec<WatchList>, AllocError>
    ensures { IfOk result (λ v. v.items ≡ replicate count []) }
{
    let mut lists = Vec::with_capacity(alloc, count)?;
    for _made in 0..count {
        lists.push(WatchList::new(alloc))?;
    }
    Ok(lists)
}

/// Adds a watch to the list of a literal.
#[inline(always)]
pub(crate) fn push_watch(lists: &mut [WatchList], code: u32, watch: Watch) -> Result<(), AllocError>
    requires { code < length lists.old }
    ensures ok { OnOk result (lists.new ≡ slice_set lists.old code (list_in lists.old code ++ watch ∷ [])) }
    ensures err { OnErr result (lists.new ≡ lists.old) }
{
    lists[code as usize].push(watch)
}

/// Puts a watch in the place of another in the list of a literal.
#[inline(always)]
pub(crate) fn set_watch(lists: &mut [WatchList], code: u32, place: usize, watch: Watch)
    requires code { code < length lists.old }
    requires place { place < length (list_in lists.old code) }
    ensures { lists.new ≡ slice_set lists.old code (slice_set (list_in lists.old code) place watch) }
{
    lists[code as usize].set(place, watch);
}

/// Takes a watch out of the list of a literal.
#[inline(always)]
pub(crate) fn remove_watch(lists: &mut [WatchList], code: u32, place: usize)
    requires code { code < length lists.old }
    requires place { place < length (list_in lists.old code) }
    ensures { lists.new ≡ slice_set lists.old code (swap_remove (list_in lists.old code) place no_watch) }
{
    lists[code as usize].remove(place);
}

/// Whether a clause of this pair watches a literal.
#[inline(always)]
fn is_watched(pair: Pair, code: u32) -> bool
    ensures yes { IsTrue result → IsWatch pair code }
    ensures no { IsWatch pair code → IsTrue result }
{
    if pair.first == pair.second {
        return false;
    }
    if pair.first == code {
        return true;
    }
    pair.second == code
}

/// The literal of a pair beside this one. It is chosen without a branch, since each is as likely as the other.
#[inline(always)]
fn beside(pair: Pair, code: u32) -> u32
    ensures first { pair.first ≡ code → result ≡ pair.second }
    ensures second { (pair.first ≡ code → ⊥) → result ≡ pair.first }
{
    if pair.first == code {
        pair.second
    } else {
        pair.first
    }
}

/// The watched literal beside this one; none where the clause does not watch it.
#[inline(always)]
pub(crate) fn other_watched(pair: Pair, code: u32) -> Option<u32>
    ensures none { IfNone result (IsWatch pair code → ⊥) }
    ensures some { IfSome result (IsOther pair code) }
{
    if !is_watched(pair, code) {
        return None;
    }
    Some(beside(pair, code))
}
