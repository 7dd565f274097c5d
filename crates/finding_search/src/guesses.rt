// The test of a pair and a row that are proposed.
ghost use Rattle.std.specs.Prelude.{◌≡◌, ◌↔◌, IsTrue};
ghost use Rattle.scan_replay.specs.Duos.{with_pair};
ghost use Rattle.queries.specs.Comparisons.{IsComparison};
ghost use Rattle.queries.specs.Questions.{step};
ghost use Rattle.queries.specs.Meaning.{Answers};
ghost use Rattle.queries.specs.Sets.{members};
ghost use Rattle.pair_trial.specs.Trials.{comparison_of, setting_in};
ghost use Rattle.invariant_prune.specs.Answers.{pair_of};
ghost use Rattle.finding_search.specs.Guesses.{leads_out};

use pair_trial::{Trial, meets};
use plc_types::Value;
use queries::{CandidateSet, Decoded};

// Whether a row leads from a pair out of a set.
fn leads_out(
    trial: &mut Trial,
    set: &CandidateSet,
    old: &[Value],
    new: &[Value],
    row: &[Value],
) -> bool
    ensures tested { result ≡ leads_out (setting_in trial.old) (members set.now) (record { old = old.now; new = new.now }) row.now }
    ensures trial { trial.new ≡ with_pair trial.new.pair trial.old }
{
    if !trial.pair_fits(old, new) {
        return false;
    }
    trial.set_pair(old, new);
    if !trial.allowed(row) {
        return false;
    }
    if !meets(trial, set) {
        return false;
    }
    trial.step(row);
    !meets(trial, set)
}

/// Whether a pair and rows are an answer to the query for a row that leads out of the set.
pub fn drops(trial: &mut Trial, set: &CandidateSet, guess: &Decoded) -> bool
    requires { IsComparison (comparison_of trial.old) }
    ensures answers { IsTrue result ↔ Answers (comparison_of trial.old) (step (members set.now)) (pair_of guess.now) guess.now.rows.items }
    ensures trial { trial.new ≡ with_pair trial.new.pair trial.old }
{
    if guess.rows.len() != 1 {
        return false;
    }
    let row = &guess.rows[0];
    leads_out(trial, set, &guess.old, &guess.new, row.as_slice())
}
