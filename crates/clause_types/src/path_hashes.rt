// Hashes of paths, which are those of the names that a path joins, so that a cell is found by names and no text is made of them.
ghost use Rattle.std.specs.Prelude.{◌≡◌, nat_eq, IfOk};
ghost use Rattle.indexmap.specs.IndexMap.{get_by};
ghost use Rattle.source_tree.specs.SyntaxView.{names_view};
ghost use Rattle.program_tree.specs.View.{cells_view};
ghost use Rattle.typing.specs.Programs.{joined};
ghost use Rattle.clause_types.specs.PathHashes as spec;

use indexmap::IndexMap;
use program_tree::Cell;
use source_tree::Name;
use std::alloc::{AllocError, Global};

// The first cell of each hash, by its place.
pub(crate) type FirstPlaces = IndexMap<u64, usize>;

// The hash of no bytes, and the factor of each byte: those of FNV-1a.
const NO_BYTES: u64 = 14_695_981_039_346_656_037;

const FACTOR: u64 = 1_099_511_628_211;

// The hash of a text with one more byte.
#[tactic(auto, unfolding(crate::specs::PathHashes::with_byte))]
fn with_byte(hash: u64, byte: u8) -> u64
    ensures { result ≡ spec.with_byte hash byte }
{
    (hash ^ u64::from(byte)).wrapping_mul(FACTOR)
}

// The hash of a text with more bytes.
fn with_bytes(hash: u64, bytes: &[u8]) -> u64
    ensures { result ≡ spec.with_bytes hash bytes.now }
{
    let mut whole = hash;
    for byte in bytes {
        whole = with_byte(whole, *byte);
    }
    whole
}

// The hash of names that are joined by points.
fn joined_hash(members: &[Name]) -> u64
    ensures { result ≡ spec.hash_of (joined (names_view members.now)) }
{
    let Some((first, others)) = members.split_first() else {
        return NO_BYTES;
    };
    let mut hash = with_bytes(NO_BYTES, first.text.as_bytes());
    for member in others {
        hash = with_bytes(with_byte(hash, b'.'), member.text.as_bytes());
    }
    hash
}

/// The first cell of each hash of a path. Cells of one hash are told apart by who looks them up.
pub(crate) fn first_places(alloc: Global, cells: &[Cell]) -> Result<FirstPlaces, AllocError>
    ensures { IfOk result (λ found. spec.FindsHashes found 0 (cells_view cells.now)) }
{
    let mut found = IndexMap::new(alloc);
    for index in (0..cells.len()).rev() {
        let hash = with_bytes(NO_BYTES, cells[index].path.as_bytes());
        found.insert(hash, index)?;
    }
    Ok(found)
}

/// The place of the first cell whose path has the hash of a text.
pub(crate) fn find_first_of(found: &FirstPlaces, path: &str) -> Option<usize>
    ensures { result ≡ get_by (nat_eq (spec.hash_of path.now)) found.now }
{
    found.get(&with_bytes(NO_BYTES, path.as_bytes())).copied()
}

/// The place of the first cell whose path has the hash of the joined names.
pub(crate) fn find_first(found: &FirstPlaces, members: &[Name]) -> Option<usize>
    ensures { result ≡ get_by (nat_eq (spec.hash_of (joined (names_view members.now)))) found.now }
{
    found.get(&joined_hash(members)).copied()
}
