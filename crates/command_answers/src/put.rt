// Text on the sink.
ghost use Rattle.std.specs.Prelude.{false, ◌≡◌, OnOk, OnErr};
ghost use Rattle.outside.specs.Causes.{HasCause};
ghost use Rattle.outside.specs.Contents.{extended};
ghost use Rattle.command_answers.specs.Puts.{PutsPart};

use outside::{OutErr, Sink};

/// Puts a text, all of it or a front of it.
pub fn put_text<K: Sink>(out: &mut K, text: &str) -> Result<(), OutErr>
    requires unfailed { (K.state out.old).put_failed ≡ false }
    ensures whole { OnOk result ((K.state out.new).taken ≡ extended (K.state out.old).taken text.now) }
    ensures part { OnErr result (PutsPart (K.state out.old).taken (K.state out.new).taken text.now) }
    ensures cause { HasCause (K.state out.old).faults (K.state out.new).faults result }
    ensures unfailed { OnOk result ((K.state out.new).put_failed ≡ false) }
{
    out.put(text.as_bytes())
}
