// Files in memory, by name.
ghost use Rattle.std.specs.Prelude.{◌≡◌, ◌≢◌, ◌++◌, ◌<◌, ◌≤◌, ℕ, List, [], Option, Some, None, OnOk, OnErr, IfOk, MatchOption, length, option_map};
ghost use Rattle.outside.specs.Files.{file_at, bytes_at, place_of};
ghost use Rattle.outside.specs.Contents.{IsRead};

use std::alloc::{AllocError, Global};

/// A file in memory.
#[derive(Drop)]
pub struct MemFile {
    pub name: String,
    pub bytes: Vec<u8>,
}

// The bytes of a file, if it is there.
pub fn find<'a>(files: &'a [MemFile], name: &str) -> Option<&'a [u8]>
    ensures { option_map (λ bytes. bytes.now) result ≡ file_at files.now name.now }
{
    for file in files {
        if file.name.as_str() == name {
            return Some(&file.bytes);
        }
    }
    None
}

// Copies what stands from that place on into the front of the buffer.
pub fn copy_from(bytes: &[u8], from: u64, buf: &mut [u8]) -> usize
    requires { 0 < length buf.old }
    ensures within { result ≤ length buf.new }
    ensures read { IsRead bytes.now from buf.new result }
{
    let start = from.min(bytes.len() as u64) as usize;
    let count = (bytes.len() - start).min(buf.len());
    buf[..count].copy_from_slice(&bytes[start..start + count]);
    count
}

// The place of a file, or the number of files where it is absent.
fn place(files: &[MemFile], name: &str) -> usize
    ensures at { result ≡ place_of files.now name.now }
    ensures within { result ≤ length files.now }
    ensures absent { result ≡ length files.now → file_at files.now name.now ≡ None }
{
    for (index, file) in files.iter().enumerate() {
        if file.name.as_str() == name {
            return index;
        }
    }
    files.len()
}

// Adds a file that is absent.
fn make(alloc: Global, files: &mut Vec<MemFile>, name: &str, bytes: &[u8]) -> Result<(), AllocError>
    requires { file_at files.old.items name.now ≡ None }
    ensures ok { OnOk result (file_at files.new.items name.now ≡ Some bytes.now) }
    ensures err { OnErr result (files.new.items ≡ files.old.items) }
    ensures others { (other : List ℕ) → other ≢ name.now → file_at files.new.items other ≡ file_at files.old.items other }
{
    let mut file = MemFile {
        name: String::from_str(alloc, name)?,
        bytes: Vec::new(alloc),
    };
    file.bytes.extend_from_slice(bytes)?;
    files.push(file)?;
    Ok(())
}

// Adds bytes to a file, which it makes if it is absent.
pub fn add(
    alloc: Global,
    files: &mut Vec<MemFile>,
    name: &str,
    bytes: &[u8],
) -> Result<(), AllocError>
    ensures ok { OnOk result (file_at files.new.items name.now ≡ Some (bytes_at files.old.items name.now ++ bytes.now)) }
    ensures err { OnErr result (file_at files.new.items name.now ≡ file_at files.old.items name.now) }
    ensures others { (other : List ℕ) → other ≢ name.now → file_at files.new.items other ≡ file_at files.old.items other }
{
    let index = place(files, name);
    if index < files.len() {
        files[index].bytes.extend_from_slice(bytes)
    } else {
        make(alloc, files, name, bytes)
    }
}

// Makes a file empty, and makes it if it is absent.
pub fn empty(alloc: Global, files: &mut Vec<MemFile>, name: &str) -> Result<(), AllocError>
    ensures ok { OnOk result (file_at files.new.items name.now ≡ Some []) }
    ensures err { OnErr result (file_at files.new.items name.now ≡ file_at files.old.items name.now) }
    ensures others { (other : List ℕ) → other ≢ name.now → file_at files.new.items other ≡ file_at files.old.items other }
{
    let index = place(files, name);
    if index < files.len() {
        files[index].bytes.clear();
        Ok(())
    } else {
        make(alloc, files, name, &[])
    }
}
