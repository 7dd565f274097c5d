// The nodes of a scan.
ghost use Rattle.std.specs.Prelude.{◌≡◌, ◌++◌, ◌<◌, None, IfOk, IfErr, OnOk, IsTrue, length, map, take};
ghost use Rattle.flat_core.specs.FlatView.{flat_program_view};
ghost use Rattle.node_core.specs.Scans.{start_words, words_in, scan_of, scan_view, is_small};

use crate::fault::NodeFault;
use crate::nodes::Making;
use crate::places::places_of;
use crate::statements::run_all;
use crate::trail::Trail;
use flat_core::Flat;
use node_core::Scan;
use program_tree::Scratch;
use std::alloc::{AllocError, Global};

/// The nodes of a scan of a flat program, where there are at most 1,000,000.
pub fn to_nodes(alloc: Global, flat: &Flat) -> Result<Scan, NodeFault>
    ensures ok { IfOk result (λ s. scan_view s ≡ scan_of (flat_program_view flat.now)) }
    ensures small { OnOk result (IsTrue (is_small (flat_program_view flat.now))) }
    ensures too_many { IfErr result (λ e. e ≡ NodeFault.TooMany → 1000000 < length (scan_of (flat_program_view flat.now)).nodes) }
{
    let cells = flat.cells.len();
    let places = places_of(&flat.cells, &flat.scratch, alloc)?;
    let mut trail = Trail {
        store: start_store(cells, &flat.scratch, alloc)?,
        log: Vec::new(alloc),
    };
    let mut making = Making {
        starts: cells,
        limit: Some(1_000_000),
        nodes: Vec::new(alloc),
        fault: 0,
    };
    run_all(&flat.body, &places, &mut making, &mut trail, alloc)?;
    let last = first_words(&trail.store, cells, alloc)?;
    Ok(Scan {
        starts: cells,
        nodes: making.nodes,
        last,
    })
}

// The cells hold their start words, and the scratch cells none.
fn start_store(
    cells: usize,
    scratch: &[Scratch],
    alloc: Global,
) -> Result<Vec<Option<usize>>, AllocError>
    ensures { IfOk result (λ store. store.items ≡ start_words 0 cells ++ map (λ c. None) scratch.now) }
{
    let mut store = Vec::new(alloc);
    for cell in 0..cells {
        store.push(Some(cell))?;
    }
    for _ in scratch {
        store.push(None)?;
    }
    Ok(store)
}

// The words that the first places hold.
fn first_words(
    store: &[Option<usize>],
    cells: usize,
    alloc: Global,
) -> Result<Vec<usize>, AllocError>
    ensures { IfOk result (λ words. words.items ≡ words_in (take cells store.now)) }
{
    if cells < store.len() {
        all_words(&store[..cells], alloc)
    } else {
        all_words(store, alloc)
    }
}

fn all_words(store: &[Option<usize>], alloc: Global) -> Result<Vec<usize>, AllocError>
    ensures { IfOk result (λ words. words.items ≡ words_in store.now) }
{
    let mut words = Vec::new(alloc);
    for word in store {
        words.push(word.unwrap_or(0))?;
    }
    Ok(words)
}
