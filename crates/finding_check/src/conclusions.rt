// Verdicts: with the numbers of a set, and compared.
ghost use Rattle.std.specs.Prelude.{◌≡◌, ◌↔◌, IsTrue};
ghost use Rattle.queries.specs.Sets.{members};
ghost use Rattle.pair_trial.specs.Trials.{setting_in};
ghost use Rattle.judgement.specs.Tests.{related_by, open_by};
ghost use Rattle.finding_check.specs.Rooms.{IsSmall};

use finding_lines::Conclusion;
use pair_trial::Trial;
use plc_types::Value;
use queries::CandidateSet;

/// RELATED by a set.
pub fn related_by(trial: &Trial, set: &CandidateSet) -> Conclusion
    requires { IsSmall (setting_in trial.now) }
    ensures { result ≡ related_by (setting_in trial.now) (members set.now) }
{
    let candidates = trial.candidates();
    Conclusion::Related(set.size(candidates) as Value, candidates as Value)
}

/// OPEN by a set.
pub fn open_by(trial: &Trial, set: &CandidateSet) -> Conclusion
    requires { IsSmall (setting_in trial.now) }
    ensures { result ≡ open_by (setting_in trial.now) (members set.now) }
{
    let candidates = trial.candidates();
    Conclusion::Open(
        set.size(candidates) as Value,
        candidates as Value,
        Value::from(trial.depth()),
    )
}

/// Whether a verdict is that one, numbers and all.
pub fn is_same(conclusion: Conclusion, verdict: Conclusion) -> bool
    ensures { IsTrue result ↔ conclusion ≡ verdict }
{
    match verdict {
        Conclusion::Vacuous => conclusion == Conclusion::Vacuous,
        Conclusion::Related(kept, of) => conclusion == Conclusion::Related(kept, of),
        Conclusion::Different(scans) => conclusion == Conclusion::Different(scans),
        Conclusion::Open(kept, of, depth) => conclusion == Conclusion::Open(kept, of, depth),
        Conclusion::Spent(asked, count) => conclusion == Conclusion::Spent(asked, count),
    }
}
