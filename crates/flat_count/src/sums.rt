// Counts that stand still above 200,000, so that nested FORs of thousands of turns are counted at once.
ghost use Rattle.std.specs.Prelude.{◌≡◌, ◌+◌, ◌*◌, ◌≤◌, ◌||◌};
ghost use Rattle.flat_count.specs.Counts.{counted, capped, count_of_flag, count_unless};

use crate::leaves::Leaves;

/// How many statements a flat form may have.
pub const MOST_STATEMENTS: usize = 200_000;

/// A count of a list, by its number; none where there is none.
pub fn count_at(counts: &[usize], number: usize) -> usize
    ensures count { result ≡ capped (counted counts.now number) }
    ensures fits { result ≤ 200001 }
{
    let count = counts.get(number).copied().unwrap_or(0);
    capped(count)
}

/// The count, or the least that is too many.
pub fn capped(count: usize) -> usize
    ensures count { result ≡ capped count }
    ensures fits { result ≤ 200001 }
{
    count.min(MOST_STATEMENTS + 1)
}

/// Two counts together.
pub fn sum(a: usize, b: usize) -> usize
    requires a { a ≤ 200001 }
    requires b { b ≤ 200001 }
    ensures sum { result ≡ capped (a + b) }
    ensures fits { result ≤ 200001 }
{
    capped(a + b)
}

/// One for a flag that is cleared.
pub fn count_flag(clears: bool) -> usize
    ensures count { result ≡ count_of_flag clears }
    ensures fits { result ≤ 1 }
{
    if clears { 1 } else { 0 }
}

/// What stands behind a statement, which is asked for where the statement may leave and anything stands there.
pub fn count_behind(left: Leaves, behind: usize) -> usize
    requires { behind ≤ 200001 }
    ensures count { result ≡ capped (count_unless (left.exits || left.returns) behind) }
    ensures fits { result ≤ 200001 }
{
    if behind > 0 && (left.exits || left.returns) {
        return capped(1 + behind);
    }
    behind
}

/// So many turns with a body of so many statements: each sets the control variable, and so does the end. Where the body may leave, each turn and
/// the end are asked for, and an EXIT has a flag, which is cleared before them.
pub fn count_turns(turns: u16, left: Leaves, body: usize) -> usize
    requires { body ≤ 200001 }
    ensures count { result
        ≡ capped (count_of_flag left.exits + (turns * count_unless (left.exits || left.returns) (1 + body) + count_unless (left.exits || left.returns) 1)) }
    ensures fits { result ≤ 200001 }
{
    let flag = count_flag(left.exits);
    let asked = count_flag(left.exits || left.returns);
    let turns = usize::from(turns) * (asked + 1 + body);
    capped(flag + turns + asked + 1)
}
