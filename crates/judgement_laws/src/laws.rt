// The functions do nothing: their clauses are the laws.
ghost use Rattle.judgement_laws.specs.Laws.{OneJudgement, WrittenIsValid, SpentIsLogged, ReachSpentIsLogged, PrefixIsCutOff};

/// One thing is said of a file.
pub fn law_one_judgement()
    ensures { OneJudgement }
{}

/// Lines that all pass and lead behind an END line are a valid finding, as they are written.
pub fn law_written_is_valid()
    ensures { WrittenIsValid }
{}

/// Where a finding is valid and its verdict SPENT, it holds the log that spends the query.
pub fn law_spent_is_logged()
    ensures { SpentIsLogged }
{}

/// Where a valid finding says of reach that the query for one row more is spent, it holds the log that spends it.
pub fn law_reach_spent_is_logged()
    ensures { ReachSpentIsLogged }
{}

/// A valid finding that is cut off anywhere before its end is judged INVALID, by the test that a line ends with its line feed.
pub fn law_prefix_is_cut_off()
    ensures { PrefixIsCutOff }
{}
