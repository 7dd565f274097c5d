// Laws of reports.
ghost use Rattle.std.specs.Prelude.{◌≡◌, ℕ, List};
ghost use Rattle.outside.specs.States.{Change};
ghost use Rattle.rules.specs.declared.rule.Refusal.{Refusal};
ghost use Rattle.rules.specs.declared.rule.Rule.{Rule};
ghost use Rattle.command_answers.specs.declared.source.Source.{Source};
ghost use Rattle.command_answers.specs.Alike.{AreAlike};
ghost use Rattle.command_answers.specs.Reports.{Report, refusal_report, limit_report};
ghost use Rattle.comparison_files.specs.Texts.{Texts};
ghost use Rattle.comparison_files.specs.Accepting.{IsRefused, IsTooLarge};
ghost use Rattle.verify_command.specs.Reports.{VerifyReports};

/// Where a text breaks a rule on texts first, its refusal is the one report (the place of G1 apart).
pub fn one_refusal()
    ensures { (t : Texts) (k : Change) (name : List ℕ) (file : Source) (refusal : Refusal) (r : Report) → IsRefused t file refusal → VerifyReports t k name r → AreAlike r (refusal_report file refusal) }
{}

/// Where a text passes a limit first, its refusal is the one report.
pub fn one_limit()
    ensures { (t : Texts) (k : Change) (name : List ℕ) (file : Source) (limit : Rule) (r : Report) → IsTooLarge t file limit → VerifyReports t k name r → r ≡ limit_report file limit }
{}
