// Laws of reports.
ghost use Rattle.command_answers.specs.Alike.{AreAlike};
ghost use Rattle.command_answers.specs.Reports.{Report};
ghost use Rattle.command_files.specs.Texts.{Texts};
ghost use Rattle.replay_command.specs.Reports.{Reports};

/// There is one report on four texts (the place of G1 apart), and so one exact answer to a replay.
pub fn one_report()
    ensures { (t : Texts) (r s : Report) → Reports t r → Reports t s → AreAlike r s }
{}
