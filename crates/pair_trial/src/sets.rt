// Sets of candidates on a pair.
ghost use Rattle.std.specs.Prelude.{◌≡◌, IfOk};
ghost use Rattle.queries.specs.Settings.{meets, first_set, left_of};
ghost use Rattle.queries.specs.Sets.{members};
ghost use Rattle.scan_replay.specs.Duos.{with_pair};
ghost use Rattle.pair_trial.specs.Trials.{setting_in};

use crate::trial::Trial;
use queries::CandidateSet;
use std::alloc::{AllocError, Global};

/// Whether each candidate of a set holds.
pub fn meets(trial: &Trial, set: &CandidateSet) -> bool
    ensures { result ≡ meets (setting_in trial.now) (members set.now) trial.now.pair }
{
    for number in 0..trial.candidates() {
        if set.has(number) && !trial.holds(number) {
            return false;
        }
    }
    true
}

/// The candidates that hold at the start, to which both programs go.
pub fn first_set(alloc: Global, trial: &mut Trial) -> Result<CandidateSet, AllocError>
    ensures set { IfOk result (λ set. members set ≡ first_set (setting_in trial.old)) }
    ensures at_start { trial.new ≡ with_pair (setting_in trial.old).start trial.old }
{
    trial.reset();
    start_set(alloc, trial)
}

// The candidates that hold.
fn start_set(alloc: Global, trial: &Trial) -> Result<CandidateSet, AllocError>
    requires { trial.now.pair ≡ (setting_in trial.now).start }
    ensures { IfOk result (λ set. members set ≡ first_set (setting_in trial.now)) }
{
    let mut set = CandidateSet::new(alloc);
    for number in 0..trial.candidates() {
        set.push(trial.holds(number))?;
    }
    Ok(set)
}

/// Takes the candidates that fail out of a set.
pub fn keep(trial: &Trial, set: &mut CandidateSet)
    ensures { members set.new ≡ left_of (setting_in trial.now) (members set.old) trial.now.pair }
{
    for number in 0..set.count() {
        if !trial.holds(number) {
            set.remove(number);
        }
    }
}
