// A shelf in memory, which tells what it holds and fails in the calls on a list.
ghost use Rattle.std.specs.Prelude.{true, false, ◌≡◌, ◌≢◌, ◌+◌, ◌∷◌, ◌++◌, ◌==◌, if◌then◌else◌, [], Some, None, Option, List, ℕ, IsErrOf, IsSome, IsNone, take, OnOk, OnErr, IfSome, IfErr, IfOk, length, ◌<◌, ◌≤◌, ◌⊎◌, option_map};
ghost use Rattle.outside.specs.Contents.{Adds, IsRead, OthersStay, Empties};
ghost use Rattle.outside.specs.Causes.{HasFileCause, NoneFell};
ghost use Rattle.outside.specs.Failures.{FailsAsListed, after_call, faults_after, schedule_at_start};

use crate::failures::{self, CallCounts, Failure, OutsideCall};
use crate::files::{self, MemFile};
use crate::{OutErr, Shelf};
use std::alloc::{AllocError, Global};

/// Files in memory. A call faults where it is on the list of failures, and a read where its file is
/// absent too.
#[derive(Drop)]
pub struct MemShelf {
    alloc: Global,
    files: Vec<MemFile>,
    failures: Vec<Failure>,
    counts: CallCounts,
    read_faults: u64,
    write_faults: u64,
}

impl MemShelf {
    ghost use Rattle.outside.specs.Shelves.{file_of, bytes_of, schedule_of, read_faults_of, write_faults_of, OtherFilesStay};

    /// A shelf with no file.
    pub fn new(alloc: Global, failures: Vec<Failure>) -> Self
        ensures empty { (name : List ℕ) → file_of result name ≡ None }
        ensures schedule { schedule_of result ≡ schedule_at_start failures.items }
        ensures read_faults { read_faults_of result ≡ 0 }
        ensures write_faults { write_faults_of result ≡ 0 }
    {
        MemShelf {
            alloc,
            files: Vec::new(alloc),
            failures,
            counts: CallCounts::NONE,
            read_faults: 0,
            write_faults: 0,
        }
    }

    /// Adds bytes to a file before a run, and makes it if it is absent. This is no call.
    pub fn fill(&mut self, name: &str, bytes: &[u8]) -> Result<(), AllocError>
        ensures ok { OnOk result (file_of self.new name.now ≡ Some (bytes_of self.old name.now ++ bytes.now)) }
        ensures err { OnErr result (file_of self.new name.now ≡ file_of self.old name.now) }
        ensures others { OtherFilesStay self.old self.new name.now }
        ensures schedule { schedule_of self.new ≡ schedule_of self.old }
        ensures read_faults { read_faults_of self.new ≡ read_faults_of self.old }
        ensures write_faults { write_faults_of self.new ≡ write_faults_of self.old }
    {
        files::add(self.alloc, &mut self.files, name, bytes)
    }

    /// The bytes of a file, if it is there.
    pub fn file(&self, name: &str) -> Option<&[u8]>
        ensures { option_map (λ bytes. bytes.now) result ≡ file_of self.now name.now }
    {
        files::find(&self.files, name)
    }

    /// The bytes of a file. One that is absent counts as empty.
    pub fn bytes(&self, name: &str) -> &[u8]
        ensures { result.now ≡ bytes_of self.now name.now }
    {
        files::find(&self.files, name).unwrap_or(&[])
    }

    /// How many there were of each call.
    pub fn counts(&self) -> CallCounts
        ensures { result ≡ (schedule_of self.now).counts }
    {
        self.counts
    }
}

impl Shelf for MemShelf {
    ghost use Rattle.outside.specs.Shelves.{file_of, bytes_of, schedule_of, failure_ahead, left_by_create, OtherFilesStay, read_faults_of, write_faults_of};
    ghost use Rattle.outside.specs.States.{shelf_state};

    ghost state = { λ s. shelf_state (λ name. Some (bytes_of s name)) (read_faults_of s) (write_faults_of s) };

    fn read_at(&mut self, name: &str, from: u64, buf: &mut [u8]) -> Result<usize, OutErr>
        requires { 0 < length buf.old }
        ensures within { IfOk result (λ count. count ≤ length buf.new) }
        ensures bytes { IfOk result (λ count. IsRead (bytes_of self.old name.now) from buf.new count) }
        ensures kept { file_of self.new ≡ file_of self.old }
        ensures ok { OnOk result (IsNone (failure_ahead self.old OutsideCall.Read) × IsSome (file_of self.old name.now)) }
        ensures err { OnErr result (IsSome (failure_ahead self.old OutsideCall.Read) ⊎ IsNone (file_of self.old name.now)) }
        ensures no_memory { ¬ IsErrOf result OutErr.Memory }
        ensures schedule { schedule_of self.new ≡ after_call (schedule_of self.old) OutsideCall.Read }
        ensures faults { read_faults_of self.new ≡ faults_after (read_faults_of self.old) result }
        ensures cause { HasFileCause (λ _. read_faults_of self.old) (λ _. read_faults_of self.new) name.now result }
        ensures writes { write_faults_of self.new ≡ write_faults_of self.old }
    {
        if failures::next(&self.failures, &mut self.counts, OutsideCall::Read).is_none() {
            if let Some(bytes) = files::find(&self.files, name) {
                return Ok(files::copy_from(bytes, from, buf));
            }
        }
        self.read_faults = self.read_faults.saturating_add(1);
        Err(OutErr::Fault)
    }

    fn create(&mut self, name: &str) -> Result<(), OutErr>
        ensures ok { OnOk result (file_of self.new name.now ≡ Some []) }
        ensures kept { IfSome (failure_ahead self.old OutsideCall.Create) (λ failure. IsErrOf result OutErr.Fault →
            file_of self.new name.now ≡ left_by_create failure (file_of self.old name.now)) }
        ensures memory { IsErrOf result OutErr.Memory → file_of self.new name.now ≡ file_of self.old name.now }
        ensures others { OtherFilesStay self.old self.new name.now }
        ensures listed { FailsAsListed (failure_ahead self.old OutsideCall.Create) result }
        ensures schedule { schedule_of self.new ≡ after_call (schedule_of self.old) OutsideCall.Create }
        ensures faults { write_faults_of self.new ≡ faults_after (write_faults_of self.old) result }
        ensures cause { HasFileCause (λ _. write_faults_of self.old) (λ _. write_faults_of self.new) name.now result }
        ensures reads { read_faults_of self.new ≡ read_faults_of self.old }
    {
        match failures::next(&self.failures, &mut self.counts, OutsideCall::Create) {
            None => {
                files::empty(self.alloc, &mut self.files, name)?;
                Ok(())
            }
            Some(failure) => {
                if failure.kept == 0 {
                    files::empty(self.alloc, &mut self.files, name)?;
                }
                self.write_faults = self.write_faults.saturating_add(1);
                Err(OutErr::Fault)
            }
        }
    }

    fn append(&mut self, name: &str, bytes: &[u8]) -> Result<(), OutErr>
        ensures ok { OnOk result (file_of self.new name.now ≡ Some (bytes_of self.old name.now ++ bytes.now)) }
        ensures kept { IfSome (failure_ahead self.old OutsideCall.Append) (λ failure. IsErrOf result OutErr.Fault →
            file_of self.new name.now ≡ Some (bytes_of self.old name.now ++ take failure.kept bytes.now)) }
        ensures memory { IsErrOf result OutErr.Memory → file_of self.new name.now ≡ file_of self.old name.now }
        ensures others { OtherFilesStay self.old self.new name.now }
        ensures listed { FailsAsListed (failure_ahead self.old OutsideCall.Append) result }
        ensures schedule { schedule_of self.new ≡ after_call (schedule_of self.old) OutsideCall.Append }
        ensures faults { write_faults_of self.new ≡ faults_after (write_faults_of self.old) result }
        ensures cause { HasFileCause (λ _. write_faults_of self.old) (λ _. write_faults_of self.new) name.now result }
        ensures reads { read_faults_of self.new ≡ read_faults_of self.old }
    {
        match failures::next(&self.failures, &mut self.counts, OutsideCall::Append) {
            None => {
                files::add(self.alloc, &mut self.files, name, bytes)?;
                Ok(())
            }
            Some(failure) => {
                let kept = failure.kept.min(bytes.len());
                files::add(self.alloc, &mut self.files, name, &bytes[..kept])?;
                self.write_faults = self.write_faults.saturating_add(1);
                Err(OutErr::Fault)
            }
        }
    }
}
