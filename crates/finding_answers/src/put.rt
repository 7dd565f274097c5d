// What is said of a finding, on the sink.
ghost use Rattle.std.specs.Prelude.{false, ◌≡◌, ◌≢◌, ◌≤◌};
ghost use Rattle.outside.specs.Causes.{Rose};
ghost use Rattle.command_answers.specs.Answers.{Answers};
ghost use Rattle.finding_answers.specs.Lines.{invalid_report, judged_report, too_long_report};

use crate::lines::put_lines;
use crate::show::invalid_line;
use crate::verdict::{reach_line, valid_line};
use command_answers::{Source, Status, put_last, put_limit, put_report};
use judgement::{JudgeErr, Judged, Reason};
use outside::Sink;
use rules::Rule;
use std::alloc::Global;

/// Puts the first line of a finding that fails, and the first test that it fails.
pub fn put_invalid<K: Sink>(alloc: Global, number: u64, reason: Reason, out: &mut K) -> Status
    requires unfailed { (K.state out.old).put_failed ≡ false }
    ensures answer { Answers (λ r. r ≡ invalid_report number reason) ⊥ result (K.state out.old).taken (K.state out.new).taken }
    ensures usage { result ≢ Status.Usage }
    ensures read_fault { result ≢ Status.ReadFault }
    ensures write_fault { result ≡ Status.WriteFault → Rose (K.state out.old).faults (K.state out.new).faults }
    ensures faults { (K.state out.old).faults ≤ (K.state out.new).faults }
{
    put_report(out, invalid_line(alloc, number, reason), Status::Invalid)
}

/// Puts what is said of a finding on a relation of such a DEPTH: where it is valid, what it says of reach by a put of its own.
pub fn put_judged<K: Sink>(alloc: Global, depth: u64, judged: Judged, out: &mut K) -> Status
    requires unfailed { (K.state out.old).put_failed ≡ false }
    ensures answer { Answers (λ r. r ≡ judged_report depth judged) ⊥ result (K.state out.old).taken (K.state out.new).taken }
    ensures usage { result ≢ Status.Usage }
    ensures read_fault { result ≢ Status.ReadFault }
    ensures write_fault { result ≡ Status.WriteFault → Rose (K.state out.old).faults (K.state out.new).faults }
    ensures faults { (K.state out.old).faults ≤ (K.state out.new).faults }
{
    match judged {
        Judged::Valid(verdict, reach) => {
            let line = valid_line(alloc, verdict);
            let reach = reach_line(alloc, depth, reach);
            put_lines(out, line, reach, Status::Valid)
        }
        Judged::Bad { line, reason } => put_invalid(alloc, line, reason, out),
    }
}

/// Puts why a finding was not judged: it is too long, a read of it failed, or memory was wanting.
pub fn put_unjudged<K: Sink>(alloc: Global, error: JudgeErr, out: &mut K) -> Status
    requires unfailed { (K.state out.old).put_failed ≡ false }
    ensures answer { Answers (λ r. (error ≡ JudgeErr.M8) × (r ≡ too_long_report)) (error ≡ JudgeErr.Fault) result (K.state out.old).taken (K.state out.new).taken }
    ensures usage { result ≢ Status.Usage }
    ensures read_fault { result ≡ Status.ReadFault → error ≡ JudgeErr.Fault }
    ensures write_fault { result ≡ Status.WriteFault → Rose (K.state out.old).faults (K.state out.new).faults }
    ensures faults { (K.state out.old).faults ≤ (K.state out.new).faults }
{
    match error {
        JudgeErr::M8 => put_limit(alloc, Source::Finding, Rule::FindingTooLong, out),
        JudgeErr::Fault => put_last(out, "READ FAULT\n", Status::ReadFault),
        JudgeErr::Memory => put_last(out, "MEMORY\n", Status::Memory),
    }
}
