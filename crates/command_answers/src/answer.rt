// The last text of a run, and refusals.
ghost use Rattle.std.specs.Prelude.{false, ◌≡◌, ◌≢◌, ◌≤◌, ◌++◌, IfOk, string_bytes};
ghost use Rattle.outside.specs.Causes.{Rose};
ghost use Rattle.command_answers.specs.Reports.{Report, source_word, refusal_line, refusal_report, limit_report};
ghost use Rattle.command_answers.specs.Answers.{Answers, HasPut, extent_of, all_put};

use crate::put::put_text;
use crate::source::Source;
use crate::status::Status;
use itoa::Buffer;
use outside::{OutErr, Sink};
use rules::{Refusal, Rule};
use std::alloc::{AllocError, Global};

/// Puts the last text of a run, and says with which status the run ends.
pub fn put_last<K: Sink>(out: &mut K, text: &str, status: Status) -> Status
    requires unfailed { (K.state out.old).put_failed ≡ false }
    ensures put { HasPut text.now status result (K.state out.old).taken (K.state out.new).taken }
    ensures ends { result ≢ Status.WriteFault → result ≢ Status.Memory → result ≡ status }
    ensures cause { result ≡ Status.WriteFault → status ≢ Status.WriteFault → Rose (K.state out.old).faults (K.state out.new).faults }
    ensures later { (K.state out.old).faults ≤ (K.state out.new).faults }
{
    match put_text(out, text) {
        Ok(()) => status,
        Err(OutErr::Fault) => Status::WriteFault,
        Err(OutErr::Memory) => Status::Memory,
    }
}

fn source_word(source: Source) -> &'static str
    ensures { result.now ≡ source_word source }
{
    match source {
        Source::Old => "OLD",
        Source::New => "NEW",
        Source::Relation => "REL",
        Source::Trace => "TRACE",
        Source::Finding => "FINDING",
    }
}

fn refusal_line(alloc: Global, source: Source, refusal: Refusal) -> Result<String, AllocError>
    ensures { IfOk result (λ line. string_bytes line ≡ refusal_line source refusal) }
{
    let mut digits = Buffer::new();
    let mut line = String::from_str(alloc, "REFUSED ")?;
    line.push_str(source_word(source))?;
    line.push_str(" ")?;
    line.push_str(refusal.rule.name())?;
    line.push_str(" at ")?;
    line.push_str(digits.format(refusal.at))?;
    line.push_str("\n")?;
    Ok(line)
}

/// Puts a whole report, or says that there was no memory for its text.
pub fn put_report<K: Sink>(out: &mut K, text: Result<String, AllocError>, status: Status) -> Status
    requires extent { extent_of status ≡ all_put }
    requires unfailed { (K.state out.old).put_failed ≡ false }
    ensures answer { (r : Report) → r.status ≡ status → IfOk text (λ made. string_bytes made ≡ r.text) → Answers (λ x. x ≡ r) ⊥ result (K.state out.old).taken (K.state out.new).taken }
    ensures ends { result ≢ Status.WriteFault → result ≢ Status.Memory → result ≡ status }
    ensures cause { result ≡ Status.WriteFault → Rose (K.state out.old).faults (K.state out.new).faults }
    ensures later { (K.state out.old).faults ≤ (K.state out.new).faults }
{
    match text {
        Ok(text) => put_last(out, text.as_str(), status),
        Err(_) => put_last(out, "MEMORY\n", Status::Memory),
    }
}

/// Puts the line on a refusal.
pub fn put_refusal<K: Sink>(alloc: Global, source: Source, refusal: Refusal, out: &mut K) -> Status
    requires unfailed { (K.state out.old).put_failed ≡ false }
    ensures answer { Answers (λ r. r ≡ refusal_report source refusal) ⊥ result (K.state out.old).taken (K.state out.new).taken }
    ensures no_usage { result ≢ Status.Usage }
    ensures no_read_fault { result ≢ Status.ReadFault }
    ensures cause { result ≡ Status.WriteFault → Rose (K.state out.old).faults (K.state out.new).faults }
    ensures later { (K.state out.old).faults ≤ (K.state out.new).faults }
{
    put_report(out, refusal_line(alloc, source, refusal), Status::Refused)
}

/// Puts the line on a file that passes a limit: its place is 0.
pub fn put_limit<K: Sink>(alloc: Global, source: Source, limit: Rule, out: &mut K) -> Status
    requires unfailed { (K.state out.old).put_failed ≡ false }
    ensures answer { Answers (λ r. r ≡ limit_report source limit) ⊥ result (K.state out.old).taken (K.state out.new).taken }
    ensures no_usage { result ≢ Status.Usage }
    ensures no_read_fault { result ≢ Status.ReadFault }
    ensures cause { result ≡ Status.WriteFault → Rose (K.state out.old).faults (K.state out.new).faults }
    ensures later { (K.state out.old).faults ≤ (K.state out.new).faults }
{
    put_refusal(alloc, source, Refusal { rule: limit, at: 0 }, out)
}
