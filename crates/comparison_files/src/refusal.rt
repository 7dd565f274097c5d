// Texts that are not compared, on the sink.
ghost use Rattle.std.specs.Prelude.{false, ◌≡◌, ◌≢◌, ◌≤◌};
ghost use Rattle.outside.specs.Causes.{Rose};
ghost use Rattle.command_answers.specs.Answers.{Answers};
ghost use Rattle.command_files.specs.Texts.{Texts};
ghost use Rattle.comparison_files.specs.Accepting.{IsRefused, IsTooLarge};
ghost use Rattle.comparison_files.specs.Faults.{IfFault};
ghost use Rattle.comparison_files.specs.Refusals.{ReportsRefusal};

use crate::fault::CompareFault;
use command_answers::{Status, put_last, put_limit, put_refusal};
use outside::Sink;
use std::alloc::Global;

/// Puts why texts are not compared.
pub fn put_fault<K: Sink>(alloc: Global, fault: CompareFault, out: &mut K) -> Status
    requires unfailed { (K.state out.old).put_failed ≡ false }
    ensures answer { (t : Texts) → IfFault (IsRefused t) (IsTooLarge t) fault → Answers (ReportsRefusal t) ⊥ result (K.state out.old).taken (K.state out.new).taken }
    ensures usage { result ≢ Status.Usage }
    ensures read_fault { result ≢ Status.ReadFault }
    ensures write_fault { result ≡ Status.WriteFault → Rose (K.state out.old).faults (K.state out.new).faults }
    ensures faults { (K.state out.old).faults ≤ (K.state out.new).faults }
{
    match fault {
        CompareFault::Refused(source, refusal) => put_refusal(alloc, source, refusal, out),
        CompareFault::TooLarge(source, limit) => put_limit(alloc, source, limit, out),
        CompareFault::Memory => put_last(out, "MEMORY\n", Status::Memory),
    }
}
