// Breaks by rising numbers of scans, up to DEPTH.
ghost use Rattle.std.specs.Prelude.{◌≡◌, ◌≢◌};
ghost use Rattle.queries.specs.Comparisons.{IsComparison};
ghost use Rattle.queries.specs.Sets.{members};
ghost use Rattle.pair_trial.specs.Trials.{comparison_of, setting_in};
ghost use Rattle.judgement.specs.Places.{at_deep, finished};
ghost use Rattle.judgement.specs.declared.answers.Reach.{Reach};
ghost use Rattle.judgement.specs.declared.answers.Reach.TheVariants.{Untold};
ghost use Rattle.finding_search.specs.Desks.{desk};
ghost use Rattle.finding_search.specs.Writes.{Writes};

use crate::conclusions::{deep_at, limit_of, open_by};
use crate::logs::{write_refutation, write_spent};
use crate::scans::write_break;
use crate::writing::write_end;
use clause_core::Decider;
use finding_file::{FindingWriter, WriteErr};
use finding_lines::Conclusion;
use invariant_prune::{Answer, search_at};
use outside::Shelf;
use pair_trial::Trial;
use queries::{CandidateSet, Queries};
use std::alloc::Global;

/// Searches for a break of one scan, of two, and so on, and writes each log, and the break or that there is none.
pub fn search<D: Decider, Q: Queries, S: Shelf>(
    alloc: Global,
    decider: &mut D,
    trial: &Trial,
    queries: &Q,
    writer: &mut FindingWriter,
    shelf: &mut S,
    set: &CandidateSet,
) -> Result<Conclusion, WriteErr>
    requires compared { Q.compared queries.now ≡ comparison_of trial.now }
    requires comparison { IsComparison (comparison_of trial.now) }
    ensures { (reach : Reach) → reach ≢ Untold → Writes (setting_in trial.now) (Q.formula queries.now) (desk (S.state shelf.old) writer.old) (at_deep reach (members set.now) 0)
        (desk (S.state shelf.new) writer.new) (finished reach) result }
{
    let limit = limit_of(trial);
    'depths: for none in 0..trial.depth() {
        let scans = none + 1;
        let asked = deep_at(scans);
        match search_at(alloc, decider, queries, scans, limit)? {
            Answer::Found(found) => {
                return write_break(alloc, writer, shelf, &found.rows, scans);
            }
            Answer::Refuted(log) => write_refutation(alloc, writer, shelf, asked, &log)?,
            Answer::Spent(log) => return write_spent(alloc, writer, shelf, asked, &log, limit),
        }
    }
    write_end(writer, shelf, open_by(trial, set))
}
