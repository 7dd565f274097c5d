// The command `check`.
ghost use Rattle.std.specs.Prelude.{false, ◌≡◌, ◌≢◌};
ghost use Rattle.outside.specs.States.{change};
ghost use Rattle.command_answers.specs.Ends.{Ends, IsComplete};
ghost use Rattle.comparison_files.specs.Texts.{Texts};
ghost use Rattle.finding_commands.specs.Checks.{asking_to_check, ShowsValid};

use crate::checking::Checking;
use crate::command::answer_on_finding;
use command_answers::Status;
use outside::{Shelf, Sink};
use std::alloc::Global;

/// Judges a finding by the programs and the relation that it speaks of, and says how that ends. OLD, NEW and REL are read whole before
/// any rule is tested, and the finding line by line.
pub fn answer_check<S: Shelf, K: Sink>(
    alloc: Global,
    old: &str,
    new: &str,
    relation: &str,
    finding: &str,
    shelf: &mut S,
    out: &mut K,
) -> Status
    // No read and no put has failed before, and none follows one that failed.
    requires reads { (S.state shelf.old).read_failed ≡ false }
    requires puts { (K.state out.old).put_failed ≡ false }

    // No file changes; the bytes on the sink and the status are those of the report on the four texts, where these are told; a fault comes
    // only where a count rose, and no count falls.
    ensures ends { Ends (asking_to_check old.now new.now relation.now finding.now) result (change (S.state shelf.old) (S.state shelf.new)) (K.state out.old) (K.state out.new) }
    ensures usage { result ≢ Status.Usage }

    // Where the answer is VALID and a verdict, that is the verdict of the model on what the texts state, or SPENT with its log; and where a line
    // on reach is behind it, that is the reach of the model, or the query for one row more is spent.
    ensures shown { (t : Texts) → (asking_to_check old.now new.now relation.now finding.now).Tells (S.state shelf.old) t
        → result ≡ Status.Valid → ShowsValid t (K.state out.old).taken (K.state out.new).taken }

    // Where no count rose, the answer is the whole report, or memory was wanting.
    ensures complete { IsComplete (asking_to_check old.now new.now relation.now finding.now) result (change (S.state shelf.old) (S.state shelf.new)) (K.state out.old) (K.state out.new) }
{
    answer_on_finding(alloc, &Checking, old, new, relation, finding, shelf, out)
}
