// What a finding on texts that is judged valid shows. The functions do nothing: their clauses are the laws.
ghost use Rattle.text_laws.specs.Findings.{ConclusionIsVerdict, FindingIsShown, SpentIsLogged, ReachSpentIsLogged, ShownSaysOfRows, ReachSaysOfRows, ListedIsGreatest, ListedHoldsForEver};

/// The verdict that a conclusion spells is the model's, where the conclusion is shown.
pub fn law_conclusion()
    ensures { ConclusionIsVerdict }
{}

/// The conclusion of a finding that is judged valid by what texts state is shown, and so is what the finding says of reach.
pub fn law_finding()
    ensures { FindingIsShown }
{}

/// Where that conclusion is SPENT, the finding holds the log that spends the query; and where it says that so many rows are allowed at
/// least, that which spends the query for one row more.
pub fn law_spent()
    ensures verdict { SpentIsLogged }
    ensures reach { ReachSpentIsLogged }
{}

/// A conclusion that is shown says of the rows that may come what its word says.
pub fn law_shown()
    ensures { ShownSaysOfRows }
{}

/// What is shown of reach says how many rows are allowed, one after the other from the start: so many, and no more up to DEPTH; or so many
/// at least.
pub fn law_reach()
    ensures { ReachSaysOfRows }
{}

/// The candidates that a report on a valid finding lists as kept are the greatest inductive set, and each of them holds at the start and
/// after each row of every list of allowed rows.
pub fn law_listed()
    ensures greatest { ListedIsGreatest }
    ensures holds { ListedHoldsForEver }
{}
