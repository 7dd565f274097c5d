// Which word each place holds.
ghost use Rattle.std.specs.Prelude.{◌≡◌};
ghost use Rattle.node_core.specs.Words.{word_at};
ghost use Rattle.scan_ssa.specs.Held.{held_store};

/// Which word each place holds: the places of a clause their start words, and those of a scan what the store has.
#[derive(Clone, Copy)]
pub enum Held<'a> {
    Starts(usize),
    Store(&'a [Option<usize>]),
}

/// The word that a place holds.
pub fn word_at(held: &Held<'_>, place: usize) -> usize
    ensures { result ≡ word_at (held_store held.now) place }
{
    match held {
        Held::Starts(cells) => start_word(*cells, place),
        Held::Store(store) => stored_word(store, place),
    }
}

fn start_word(cells: usize, place: usize) -> usize
    ensures { result ≡ word_at (held_store (Held.Starts cells)) place }
{
    if place < cells { place } else { 0 }
}

fn stored_word(store: &[Option<usize>], place: usize) -> usize
    ensures { result ≡ word_at store.now place }
{
    if place < store.len() {
        store[place].unwrap_or(0)
    } else {
        0
    }
}
