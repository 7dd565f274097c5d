// Verdicts and queries with their numbers.
ghost use Rattle.std.specs.Prelude.{◌≡◌, ◌≤◌, ◌+◌, pos};
ghost use Rattle.finding_lines.specs.declared.line.Asked.TheVariants as questions;
ghost use Rattle.finding_lines.specs.declared.line.Conclusion.TheVariants as conclusions;
ghost use Rattle.finding_lines.specs.Form.{AskedFits, ConclusionFits, IsEnding};
ghost use Rattle.queries.specs.Comparisons.{IsComparison};
ghost use Rattle.queries.specs.Sets.{members};
ghost use Rattle.pair_trial.specs.Trials.{comparison_of, setting_in};
ghost use Rattle.judgement.specs.Tests.{related_by, open_by};

use finding_lines::{Asked, Conclusion};
use pair_trial::Trial;
use plc_types::Value;
use queries::CandidateSet;

/// How many clauses a query may take: CONFLICTS.
#[tactic(auto, unfolding(queries::specs::Settings::setting_of))]
pub fn limit_of(trial: &Trial) -> u32
    requires { IsComparison (comparison_of trial.now) }
    ensures same { (setting_in trial.now).conflicts ≡ result }
    ensures some { 1 ≤ result }
    ensures most { result ≤ 1000000 }
{
    trial.conflicts() as u32
}

/// RELATED by a set.
#[tactic(auto, unfolding(queries::specs::Settings::setting_of))]
pub fn related_by(trial: &Trial, set: &CandidateSet) -> Conclusion
    requires { IsComparison (comparison_of trial.now) }
    ensures same { result ≡ related_by (setting_in trial.now) (members set.now) }
    ensures fits { ConclusionFits result }
    ensures ending { IsEnding result }
{
    let candidates = trial.candidates();
    Conclusion::Related(set.size(candidates) as Value, candidates as Value)
}

/// OPEN by a set.
#[tactic(auto, unfolding(queries::specs::Settings::setting_of))]
pub fn open_by(trial: &Trial, set: &CandidateSet) -> Conclusion
    requires { IsComparison (comparison_of trial.now) }
    ensures same { result ≡ open_by (setting_in trial.now) (members set.now) }
    ensures fits { ConclusionFits result }
    ensures ending { IsEnding result }
{
    let candidates = trial.candidates();
    Conclusion::Open(
        set.size(candidates) as Value,
        candidates as Value,
        Value::from(trial.depth()),
    )
}

/// DIFFERENT after so many scans.
pub fn different_at(scans: u64) -> Conclusion
    requires { scans ≤ 64 }
    ensures same { result ≡ conclusions.Different (pos scans) }
    ensures fits { ConclusionFits result }
    ensures ending { IsEnding result }
{
    Conclusion::Different(Value::from(scans))
}

/// SPENT after so many steps.
pub fn spent_by(asked: Asked, limit: u32) -> Conclusion
    requires { AskedFits asked }
    ensures same { result ≡ conclusions.Spent asked (pos limit) }
    ensures fits { ConclusionFits result }
{
    Conclusion::Spent(asked, Value::from(limit))
}

/// The query for a break of so many scans.
pub fn deep_at(scans: u64) -> Asked
    requires { scans ≤ 64 }
    ensures same { result ≡ questions.Deep (pos scans) }
    ensures fits { AskedFits result }
{
    Asked::Deep(Value::from(scans))
}

/// The query for one row more than so many.
pub fn walk_behind(rows: u64) -> Asked
    requires { rows ≤ 64 }
    ensures same { result ≡ questions.Walk (pos (rows + 1)) }
    ensures fits { AskedFits result }
{
    Asked::Walk(Value::from(rows + 1))
}
