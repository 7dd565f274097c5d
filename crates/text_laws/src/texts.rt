// What is known of a comparison that three texts state. The functions do nothing: their clauses are the laws.
ghost use Rattle.text_laws.specs.Laws.{StatedIsRelatable, StatedIsComparison, FormulasMean};

/// Both programs that texts state can be run, and each INPUT line of the relation names cells of them.
pub fn law_accepted()
    ensures { StatedIsRelatable }
{}

/// The candidates of the relation are listed in order, at most 4,096, and its numbers are within their limits.
pub fn law_comparison()
    ensures { StatedIsComparison }
{}

/// The formula of each query has a solution exactly where the query has an answer.
pub fn law_means()
    ensures { FormulasMean }
{}
