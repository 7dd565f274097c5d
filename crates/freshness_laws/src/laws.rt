// The laws of fresh clauses.
ghost use Rattle.freshness_laws.specs.FreshClauses.{NoPartIsHeld, NothingIsFreshWhereRefuted};
ghost use Rattle.freshness_laws.specs.Deletions.{FreshOverAll, AcceptedOverAll};

/// The law that no held clause is a part of a fresh clause. It does nothing.
pub fn law_no_held_part()
    ensures { NoPartIsHeld }
{}

/// The law that no clause is fresh where unit propagation alone refutes what is held. It does nothing.
pub fn law_nothing_fresh_where_refuted()
    ensures { NothingIsFreshWhereRefuted }
{}

/// The law that a clause is fresh over what is held exactly where it is fresh over all that was ever held. It does nothing.
pub fn law_fresh_over_all()
    ensures { FreshOverAll }
{}

/// The law that a step which is accepted over what is held is accepted over all that was ever held. It does nothing.
pub fn law_accepted_over_all()
    ensures { AcceptedOverAll }
{}
