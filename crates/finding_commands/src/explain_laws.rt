// Laws of reports.
ghost use Rattle.command_answers.specs.Alike.{AreAlike};
ghost use Rattle.command_answers.specs.Reports.{Report};
ghost use Rattle.comparison_files.specs.Texts.{Texts};
ghost use Rattle.finding_commands.specs.Explanations.{ExplainReports};

/// There is one report on four texts (the place of G1 apart), and so one exact answer to a command to explain.
pub fn one_explain_report()
    ensures { (t : Texts) (r s : Report) → ExplainReports t r → ExplainReports t s → AreAlike r s }
{}
