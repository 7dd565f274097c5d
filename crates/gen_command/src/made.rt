// What is made from a number before it is tested.
ghost use Rattle.std.specs.Prelude.{◌≡◌, IfOk};
ghost use Rattle.verify_command.specs.comparison_files.Kept.{IsKept};
ghost use Rattle.verify_command.specs.comparison_files.KeptTexts.{AreKept};
ghost use Rattle.generated_texts.specs.Texts.{AreGenerated};
ghost use Rattle.gen_command.specs.Made.{texts_of, IsMade};

use generated_texts::{FileNames, GeneratedTexts, file_names, generate};
use std::alloc::{AllocError, Global};
use verify_command::KeptTexts;

/// How many bytes a text may have.
const LIMIT: usize = 1_048_576;

/// The names of the files, the texts, and the texts as they are kept of files that are read.
#[derive(Drop)]
pub struct Made {
    pub names: FileNames,
    pub texts: GeneratedTexts,
    pub kept: KeptTexts,
}

// A text as it is kept of a file.
fn keep(alloc: Global, text: &[u8]) -> Result<Option<Vec<u8>>, AllocError>
    ensures { IfOk result (λ kept. IsKept kept text.now) }
{
    if text.len() > LIMIT {
        return Ok(None);
    }
    let mut kept = Vec::new(alloc);
    kept.extend_from_slice(text)?;
    Ok(Some(kept))
}

fn keep_texts(alloc: Global, count: u32, texts: &GeneratedTexts) -> Result<KeptTexts, AllocError>
    requires { AreGenerated count texts.now }
    ensures { IfOk result (λ kept. AreKept kept (texts_of count)) }
{
    Ok(KeptTexts {
        old: keep(alloc, &texts.old)?,
        new: keep(alloc, &texts.new)?,
        relation: keep(alloc, &texts.relation)?,
    })
}

/// Makes it for so many inputs.
pub(crate) fn make(alloc: Global, count: u32) -> Result<Made, AllocError>
    ensures { IfOk result (IsMade count) }
{
    let names = file_names(alloc, count)?;
    let texts = generate(alloc, count)?;
    let kept = keep_texts(alloc, count, &texts)?;
    Ok(Made { names, texts, kept })
}
