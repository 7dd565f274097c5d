// The texts of OLD, NEW and REL.
ghost use Rattle.std.specs.Prelude.{false, ◌≡◌, IfOk, IsErrOf, OnOk};
ghost use Rattle.outside.specs.Causes.{NoneFell};
ghost use Rattle.outside.specs.Reach.{ReachesAtMost};
ghost use Rattle.command_files.specs.Texts.{Texts, AreThreeTold, OneOfThreeRose};
ghost use Rattle.command_files.specs.KeptTexts.{AreKept};

use crate::files::read_text;
use outside::{OutErr, Shelf};
use std::alloc::Global;

/// The texts of OLD, NEW and REL; one that is too long is not there.
#[derive(Drop)]
pub struct KeptTexts {
    pub old: Option<Vec<u8>>,
    pub new: Option<Vec<u8>>,
    pub relation: Option<Vec<u8>>,
}

/// Reads the three files whole, in their order.
pub fn read_texts<S: Shelf>(
    alloc: Global,
    old: &str,
    new: &str,
    relation: &str,
    shelf: &mut S,
) -> Result<KeptTexts, OutErr>
    requires unfailed { (S.state shelf.old).read_failed ≡ false }
    ensures texts { (t : Texts) → AreThreeTold (S.state shelf.old).file old.now new.now relation.now t → IfOk result (λ kept. AreKept kept t) }
    ensures kept { (S.state shelf.new).file ≡ (S.state shelf.old).file }
    ensures fault { IsErrOf result OutErr.Fault → OneOfThreeRose (S.state shelf.old).read_faults (S.state shelf.new).read_faults old.now new.now relation.now }
    ensures reads { NoneFell (S.state shelf.old).read_faults (S.state shelf.new).read_faults }
    ensures writes { NoneFell (S.state shelf.old).write_faults (S.state shelf.new).write_faults }
    ensures unfailed { OnOk result ((S.state shelf.new).read_failed ≡ false) }
    ensures reach { ReachesAtMost 1048577 (S.state shelf.old).reach (S.state shelf.new).reach }
{
    let old = read_text(alloc, shelf, old)?;
    let new = read_text(alloc, shelf, new)?;
    let relation = read_text(alloc, shelf, relation)?;
    Ok(KeptTexts { old, new, relation })
}
