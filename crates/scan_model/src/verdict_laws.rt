// Laws of verdicts. The functions do nothing: their clauses are the laws.
ghost use Rattle.scan_model.specs.VerdictLaws.{RelatedForEver, NoBreakWhereRelated, GreatestIsInductive, HoldingInRangeIsInductive, FailingIsNotKept, OneVerdict};

/// Where the verdict is RELATED, the pair is related after every row of every list of allowed rows.
pub fn related_for_ever()
    ensures { RelatedForEver }
{}

/// Where the verdict is RELATED, there is no break.
pub fn no_break_where_related()
    ensures { NoBreakWhereRelated }
{}

/// The greatest inductive set is inductive.
pub fn greatest_is_inductive()
    ensures { GreatestIsInductive }
{}

/// A set that holds on every pair in range is inductive.
pub fn holding_in_range_is_inductive()
    ensures { HoldingInRangeIsInductive }
{}

/// A candidate that fails after an allowed row, from a pair in range that meets a set with all that is kept, is in no
/// inductive set.
pub fn failing_is_not_kept()
    ensures { FailingIsNotKept }
{}

/// There is at most one verdict.
pub fn one_verdict()
    ensures { OneVerdict }
{}
