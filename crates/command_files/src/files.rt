// Whole texts of files.
ghost use Rattle.std.specs.Prelude.{false, ◌≡◌, IfOk, IfSome, OnOk};
ghost use Rattle.outside.specs.Causes.{HasFileCause, NoneFell};
ghost use Rattle.outside.specs.Reach.{ReachesAtMost};
ghost use Rattle.command_files.specs.Kept.{IsKept};

use outside::{OutErr, Shelf};
use std::alloc::Global;

// How many bytes a text may have.
const LIMIT: usize = 1_048_576;

/// The text of a file, or none where it is too long. It is read to its end, or to byte 1,048,577, counted from 1: the one that shows
/// that it is too long.
pub fn read_text<S: Shelf>(
    alloc: Global,
    shelf: &mut S,
    name: &str,
) -> Result<Option<Vec<u8>>, OutErr>
    requires unfailed { (S.state shelf.old).read_failed ≡ false }
    ensures text { IfSome ((S.state shelf.old).file name.now) (λ bytes. IfOk result (λ o. IsKept o bytes)) }
    ensures kept { (S.state shelf.new).file ≡ (S.state shelf.old).file }
    ensures cause { HasFileCause (S.state shelf.old).read_faults (S.state shelf.new).read_faults name.now result }
    ensures writes { NoneFell (S.state shelf.old).write_faults (S.state shelf.new).write_faults }
    ensures unfailed { OnOk result ((S.state shelf.new).read_failed ≡ false) }
    ensures reach { ReachesAtMost 1048577 (S.state shelf.old).reach (S.state shelf.new).reach }
{
    let mut text = Vec::new(alloc);
    let mut buffer = [0u8; 65536];
    'parts: while text.len() <= LIMIT {
        let room = (LIMIT + 1 - text.len()).min(buffer.len());
        let count = shelf.read_at(name, text.len() as u64, &mut buffer[..room])?;
        if count == 0 {
            return Ok(Some(text));
        }
        text.extend_from_slice(&buffer[..count])?;
    }
    Ok(None)
}
