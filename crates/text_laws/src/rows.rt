// What each verdict says of lists of allowed rows. The functions do nothing: their clauses are the laws.
ghost use Rattle.text_laws.specs.Laws.{RelatedForEver, KeptForEver, DifferentIsLeast, OpenIsRelatedSoFar, NothingRunsWhereVacuous, OneVerdictOfTexts};

/// Where the verdict on texts is RELATED, the pair is related after each row of every list of allowed rows.
pub fn law_related_for_ever()
    ensures { RelatedForEver }
{}

/// A candidate that is kept holds at the start, and after each row of every list of allowed rows.
pub fn law_kept_for_ever()
    ensures { KeptForEver }
{}

/// Where the verdict on texts is DIFFERENT, so many allowed rows lead to a pair that is not related, and no fewer do.
pub fn law_different()
    ensures { DifferentIsLeast }
{}

/// Where the verdict on texts is OPEN, the pair is related after each of at most DEPTH allowed rows.
pub fn law_open()
    ensures { OpenIsRelatedSoFar }
{}

/// Where the verdict on texts is VACUOUS, no row is allowed at the start.
pub fn law_vacuous()
    ensures { NothingRunsWhereVacuous }
{}

/// Texts have at most one verdict.
pub fn law_one_verdict()
    ensures { OneVerdictOfTexts }
{}
