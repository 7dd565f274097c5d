// Laws that show a verdict. The functions do nothing: their clauses are the laws.
ghost use Rattle.verdict_laws.specs.Laws.{UnleftIsProved, LeftIsNotProved, VacuousIsShown, RelatedIsShown, DifferentIsShown, OpenIsShown};

/// The greatest set proves that pairs stay related, where no allowed row leads from it out of the relation.
pub fn greatest_set_not_left_is_proved()
    ensures { UnleftIsProved }
{}

/// Where a row leads from the greatest set out of the relation, pairs are not proved to stay related.
pub fn greatest_set_left_is_not_proved()
    ensures { LeftIsNotProved }
{}

/// VACUOUS is shown by the want of a first row.
pub fn vacuous_is_shown()
    ensures { VacuousIsShown }
{}

/// RELATED is shown by the greatest set, and its numbers are that set's size and the number of candidates.
pub fn related_is_shown()
    ensures { RelatedIsShown }
{}

/// DIFFERENT is shown by a break, where none is shorter.
pub fn different_is_shown()
    ensures { DifferentIsShown }
{}

/// OPEN is shown by the want of a break up to DEPTH, and its numbers are those of the greatest set.
pub fn open_is_shown()
    ensures { OpenIsShown }
{}
