// A report of two lines, each by a put of its own.
ghost use Rattle.std.specs.Prelude.{false, ◌≡◌, ◌≢◌, ◌≤◌, ◌++◌, ℕ, List, IfOk, string_bytes};
ghost use Rattle.outside.specs.Causes.{Rose};
ghost use Rattle.command_answers.specs.Reports.{Report};
ghost use Rattle.command_answers.specs.Answers.{Answers, HasPut, extent_of, all_put};

use command_answers::{Status, put_last, put_text};
use outside::{OutErr, Sink};
use std::alloc::AllocError;

// Puts a line, and the one behind it where there is one, and says with which status the run ends.
fn put_both<K: Sink>(out: &mut K, line: &str, behind: &str, status: Status) -> Status
    requires unfailed { (K.state out.old).put_failed ≡ false }
    ensures put { HasPut (line.now ++ behind.now) status result (K.state out.old).taken (K.state out.new).taken }
    ensures ends { result ≢ Status.WriteFault → result ≢ Status.Memory → result ≡ status }
    ensures cause { result ≡ Status.WriteFault → status ≢ Status.WriteFault → Rose (K.state out.old).faults (K.state out.new).faults }
    ensures later { (K.state out.old).faults ≤ (K.state out.new).faults }
{
    if behind.is_empty() {
        return put_last(out, line, status);
    }
    match put_text(out, line) {
        Ok(()) => put_last(out, behind, status),
        Err(OutErr::Fault) => Status::WriteFault,
        Err(OutErr::Memory) => Status::Memory,
    }
}

/// Puts a whole report, a line and the one behind it where there is one, or says that there was no memory for their text.
pub(crate) fn put_lines<K: Sink>(
    out: &mut K,
    line: Result<String, AllocError>,
    behind: Result<String, AllocError>,
    status: Status,
) -> Status
    requires extent { extent_of status ≡ all_put }
    requires unfailed { (K.state out.old).put_failed ≡ false }
    ensures answer { (r : Report) (first second : List ℕ) → r.status ≡ status → r.text ≡ first ++ second
        → IfOk line (λ made. string_bytes made ≡ first) → IfOk behind (λ made. string_bytes made ≡ second)
        → Answers (λ x. x ≡ r) ⊥ result (K.state out.old).taken (K.state out.new).taken }
    ensures ends { result ≢ Status.WriteFault → result ≢ Status.Memory → result ≡ status }
    ensures cause { result ≡ Status.WriteFault → Rose (K.state out.old).faults (K.state out.new).faults }
    ensures later { (K.state out.old).faults ≤ (K.state out.new).faults }
{
    let (Ok(line), Ok(behind)) = (line, behind) else {
        return put_last(out, "MEMORY\n", Status::Memory);
    };
    put_both(out, line.as_str(), behind.as_str(), status)
}
