// Laws of the order. The functions do nothing: their clauses are the laws.
ghost use Rattle.call_order.specs.OrderLaws.{StandsBehindItsUses, StandsOnce, IsBelowLength, HasEach, NoneReachesItself, SomeReachesItself, LeadsWhereItReaches};

/// In the order, each number stands behind those that it uses.
pub fn stands_behind_its_uses()
    ensures { StandsBehindItsUses }
{}

/// No number stands twice in the order.
pub fn stands_once()
    ensures { StandsOnce }
{}

/// Each number of the order is below the length.
pub fn is_below_length()
    ensures { IsBelowLength }
{}

/// Where the order has as many numbers as there are, it has each of them.
pub fn has_each()
    ensures { HasEach }
{}

/// Where the order has as many numbers as there are, none reaches itself.
pub fn none_reaches_itself()
    ensures { NoneReachesItself }
{}

/// Where the order has fewer numbers than there are, and all that are used are there, some number reaches itself.
pub fn some_reaches_itself()
    ensures { SomeReachesItself }
{}

/// One number leads to another exactly where it reaches it.
pub fn leads_where_it_reaches()
    ensures { LeadsWhereItReaches }
{}
