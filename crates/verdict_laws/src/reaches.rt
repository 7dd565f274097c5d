// Laws of the reach. The functions do nothing: their clauses are the laws.
ghost use Rattle.verdict_laws.specs.Reach.{UnwalkedIsReach, WholeIsReach};

/// Where rows are allowed one after the other from the start, and one more never are, their number is the reach.
pub fn law_unwalked_is_reach()
    ensures { UnwalkedIsReach }
{}

/// Where as many rows as DEPTH are allowed one after the other from the start, DEPTH is the reach.
pub fn law_whole_is_reach()
    ensures { WholeIsReach }
{}
