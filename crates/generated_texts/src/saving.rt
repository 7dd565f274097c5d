// Texts in files.
ghost use Rattle.std.specs.Prelude.{◌≡◌, OnOk, OnErr, IsErrOf};
ghost use Rattle.outside.specs.Causes.{HasFileCause, NoneFell};
ghost use Rattle.outside.specs.Contents.{OthersStay};
ghost use Rattle.generated_texts.specs.Names.{AreFileNames};
ghost use Rattle.generated_texts.specs.Texts.{AreGenerated};
ghost use Rattle.generated_texts.specs.Files.{HoldsText, LeavesText, HoldTexts, LeaveTexts, OtherFilesStay, OneTextFailed};

use crate::names::FileNames;
use crate::texts::GeneratedTexts;
use outside::{OutErr, Shelf};

// Makes a file, and puts a text into it.
fn save_text<S: Shelf>(shelf: &mut S, name: &str, text: &[u8]) -> Result<(), OutErr>
    ensures holds { OnOk result (HoldsText ((S.state shelf.new).file name.now) text.now) }
    ensures leaves { LeavesText ((S.state shelf.old).file name.now) ((S.state shelf.new).file name.now) text.now }
    ensures others { OthersStay (S.state shelf.old).file (S.state shelf.new).file name.now }
    ensures cause { HasFileCause (S.state shelf.old).write_faults (S.state shelf.new).write_faults name.now result }
    ensures reads { NoneFell (S.state shelf.old).read_faults (S.state shelf.new).read_faults }
{
    shelf.create(name)?;
    shelf.append(name, text)
}

/// Saves the three texts, one after the other, until one cannot be saved.
pub fn save_texts<S: Shelf>(
    count: u32,
    names: &FileNames,
    texts: &GeneratedTexts,
    shelf: &mut S,
) -> Result<(), OutErr>
    requires names { AreFileNames count names.now }
    requires texts { AreGenerated count texts.now }
    ensures hold { OnOk result (HoldTexts count (S.state shelf.new).file) }
    ensures leave { LeaveTexts count (S.state shelf.old).file (S.state shelf.new).file }
    ensures others { OtherFilesStay count (S.state shelf.old).file (S.state shelf.new).file }
    ensures fault { IsErrOf result OutErr.Fault → OneTextFailed count (S.state shelf.old).write_faults (S.state shelf.new).write_faults }
    ensures writes { NoneFell (S.state shelf.old).write_faults (S.state shelf.new).write_faults }
    ensures reads { NoneFell (S.state shelf.old).read_faults (S.state shelf.new).read_faults }
{
    save_text(shelf, names.old.as_str(), &texts.old)?;
    save_text(shelf, names.new.as_str(), &texts.new)?;
    save_text(shelf, names.relation.as_str(), &texts.relation)
}
