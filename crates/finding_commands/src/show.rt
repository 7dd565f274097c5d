// What is said of a finding that was to be explained, on the sink.
ghost use Rattle.std.specs.Prelude.{false, ◌≡◌, ◌≢◌, ◌≤◌, ◌++◌, IfOk, codes, string_bytes};
ghost use Rattle.outside.specs.Causes.{Rose};
ghost use Rattle.command_answers.specs.Answers.{Answers};
ghost use Rattle.finding_commands.specs.Lines.{explained_report};

use command_answers::{Status, put_report};
use finding_answers::put_invalid;
use finding_explain::Explained;
use outside::Sink;
use std::alloc::{AllocError, Global};

// A text and a line feed.
fn line_of(text: String) -> Result<String, AllocError>
    ensures { IfOk result (λ line. string_bytes line ≡ string_bytes text ++ codes "\n") }
{
    let mut line = text;
    line.push_str("\n")?;
    Ok(line)
}

/// Puts the report on a valid finding, or what the judge says.
pub(crate) fn put_explained<K: Sink>(alloc: Global, explained: Explained, out: &mut K) -> Status
    requires unfailed { (K.state out.old).put_failed ≡ false }
    ensures answer { Answers (λ r. r ≡ explained_report explained) ⊥ result (K.state out.old).taken (K.state out.new).taken }
    ensures usage { result ≢ Status.Usage }
    ensures read_fault { result ≢ Status.ReadFault }
    ensures write_fault { result ≡ Status.WriteFault → Rose (K.state out.old).faults (K.state out.new).faults }
    ensures faults { (K.state out.old).faults ≤ (K.state out.new).faults }
{
    match explained {
        Explained::Valid(text) => put_report(out, line_of(text), Status::Valid),
        Explained::Bad { line, reason } => put_invalid(alloc, line, reason, out),
    }
}
