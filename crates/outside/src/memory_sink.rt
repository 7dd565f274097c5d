// A sink in memory, which tells what it took and fails in the calls on a list.
ghost use Rattle.std.specs.Prelude.{false, ◌≡◌, ◌++◌, [], Some, Option, List, ℕ, IsErrOf, take, OnOk, IfSome};
ghost use Rattle.outside.specs.Contents.{Adds};
ghost use Rattle.outside.specs.Causes.{HasCause};
ghost use Rattle.outside.specs.Failures.{FailsAsListed, after_call, faults_after, schedule_at_start};

use crate::failures::{self, CallCounts, Failure, OutsideCall};
use crate::{OutErr, Sink};
use std::alloc::Global;

/// Output into memory. A put faults exactly where it is on the list of failures.
#[derive(Drop)]
pub struct MemSink {
    bytes: Vec<u8>,
    failures: Vec<Failure>,
    counts: CallCounts,
    faults: u64,
}

impl MemSink {
    ghost use Rattle.outside.specs.Sinks.{taken_by, schedule_of, faults_of};

    /// A sink that has taken nothing.
    pub fn new(alloc: Global, failures: Vec<Failure>) -> Self
        ensures empty { taken_by result ≡ [] }
        ensures schedule { schedule_of result ≡ schedule_at_start failures.items }
        ensures faults { faults_of result ≡ 0 }
    {
        MemSink {
            bytes: Vec::new(alloc),
            failures,
            counts: CallCounts::NONE,
            faults: 0,
        }
    }

    /// The bytes that were taken.
    pub fn bytes(&self) -> &[u8]
        ensures { result.now ≡ taken_by self.now }
    {
        &self.bytes
    }

    /// How many there were of each call.
    pub fn counts(&self) -> CallCounts
        ensures { result ≡ (schedule_of self.now).counts }
    {
        self.counts
    }
}

impl Sink for MemSink {
    ghost use Rattle.outside.specs.Sinks.{taken_by, schedule_of, failure_ahead, faults_of};
    ghost use Rattle.outside.specs.States.{sink_state};

    ghost state = { λ s. sink_state (Some (taken_by s)) (faults_of s) };

    fn put(&mut self, bytes: &[u8]) -> Result<(), OutErr>
        ensures ok { OnOk result (taken_by self.new ≡ taken_by self.old ++ bytes.now) }
        ensures kept { IfSome (failure_ahead self.old) (λ failure. IsErrOf result OutErr.Fault →
            taken_by self.new ≡ taken_by self.old ++ take failure.kept bytes.now) }
        ensures memory { IsErrOf result OutErr.Memory → taken_by self.new ≡ taken_by self.old }
        ensures listed { FailsAsListed (failure_ahead self.old) result }
        ensures schedule { schedule_of self.new ≡ after_call (schedule_of self.old) OutsideCall.Put }
        ensures faults { faults_of self.new ≡ faults_after (faults_of self.old) result }
        ensures added { Adds (Some (taken_by self.old)) (Some (taken_by self.new)) bytes.now result }
        ensures cause { HasCause (faults_of self.old) (faults_of self.new) result }
    {
        match failures::next(&self.failures, &mut self.counts, OutsideCall::Put) {
            None => {
                self.bytes.extend_from_slice(bytes)?;
                Ok(())
            }
            Some(failure) => {
                let kept = failure.kept.min(bytes.len());
                self.bytes.extend_from_slice(&bytes[..kept])?;
                self.faults = self.faults.saturating_add(1);
                Err(OutErr::Fault)
            }
        }
    }
}
