// What valid findings show. The function does nothing: its clause is the law.
ghost use Rattle.std.specs.Prelude.{ℕ, List, Result};
ghost use Rattle.clause_core.specs.Formula.{Formula};
ghost use Rattle.queries.specs.Comparisons.{Comparison, IsComparison};
ghost use Rattle.queries.specs.Questions.{QueryData, IsQueryOf};
ghost use Rattle.queries.specs.Meaning.{Means};
ghost use Rattle.queries.specs.Settings.{setting_of};
ghost use Rattle.judgement.specs.Findings.{IsJudged};
ghost use Rattle.judgement.specs.Shown.{ShowsVerdict};
ghost use Rattle.judgement.specs.declared.answers.Judged.{Judged};
ghost use Rattle.judgement.specs.declared.answers.JudgeErr.{JudgeErr};

/// The verdict of a finding that is judged valid is the model's, or SPENT with its log; what it says of reach is the model's, or the query for
/// one row more is spent.
pub fn law_sound()
    ensures { (c : Comparison) (formula : QueryData → Formula) → IsComparison c
        → ((query : QueryData) → IsQueryOf c query → Means c query (formula query))
        → (limit : ℕ) (file : List ℕ) (answer : Result Judged JudgeErr)
        → IsJudged (setting_of c) formula limit file answer → ShowsVerdict c formula answer }
{}
