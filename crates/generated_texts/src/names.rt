// The names of the files.
ghost use Rattle.std.specs.Prelude.{◌≡◌, codes, IfOk, string_bytes};
ghost use Rattle.generated_texts.specs.Names.{file_name, AreFileNames};

use itoa::Buffer;
use std::alloc::{AllocError, Global};

/// The names of the files that are made: three texts and the finding.
#[derive(Drop)]
pub struct FileNames {
    pub old: String,
    pub new: String,
    pub relation: String,
    pub finding: String,
}

// `gen`, the number and an ending.
fn file_name(alloc: Global, count: u32, ending: &str) -> Result<String, AllocError>
    ensures { IfOk result (λ name. string_bytes name ≡ file_name count ending.now) }
{
    let mut digits = Buffer::new();
    let mut name = String::from_str(alloc, "gen")?;
    name.push_str(digits.format(count))?;
    name.push_str(ending)?;
    Ok(name)
}

/// The names of the files, by the number of inputs.
pub fn file_names(alloc: Global, count: u32) -> Result<FileNames, AllocError>
    ensures { IfOk result (AreFileNames count) }
{
    Ok(FileNames {
        old: file_name(alloc, count, ".old")?,
        new: file_name(alloc, count, ".new")?,
        relation: file_name(alloc, count, ".rel")?,
        finding: file_name(alloc, count, ".fnd")?,
    })
}
