// Laws of sets of candidates. The functions do nothing: their clauses are the laws.
ghost use Rattle.verdict_laws.specs.Laws.{StartCovers, StartMeets, LeftCovers, UnleftIsInductive, CoveringIsGreatest, OneSize};

/// The candidates that hold at the start are all that are kept, and perhaps more.
pub fn start_covers()
    ensures covers { StartCovers }
    ensures meets { StartMeets }
{}

/// A candidate that fails after an allowed row, from a pair in range that meets a set with all that are kept, is not kept.
pub fn set_left_after_a_row_covers()
    ensures { LeftCovers }
{}

/// A set that holds at the start, and that no allowed row leads out of, is inductive.
pub fn set_that_is_not_left_is_inductive()
    ensures { UnleftIsInductive }
{}

/// An inductive set with all that are kept is the greatest.
pub fn covering_inductive_set_is_greatest()
    ensures { CoveringIsGreatest }
{}

/// Two greatest sets have one size.
pub fn greatest_sets_have_one_size()
    ensures { OneSize }
{}
