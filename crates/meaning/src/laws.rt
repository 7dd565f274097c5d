// Laws of the definitions.
ghost use Rattle.meaning.specs.Laws.{ListsDoWhatTheirPartsDo, NoneFires, TransitionsFireInTurn, WithoutLeavingAllGoOn, WithoutLeavingEachRuns};

/// The law of the transitions of a chart: which of them fire is told by those before each. It does nothing.
pub fn transitions_fire_in_turn()
    ensures none { NoneFires }
    ensures next { TransitionsFireInTurn }
{}

/// The laws of lists of statements: a list does what its parts do, up to the one that leaves it; and where no EXIT and no RETURN leaves
/// it, each statement runs on the state that the one before it leaves. It does nothing.
pub fn lists_do_what_their_parts_do()
    ensures parts { ListsDoWhatTheirPartsDo }
    ensures goes_on { WithoutLeavingAllGoOn }
    ensures each { WithoutLeavingEachRuns }
{}
