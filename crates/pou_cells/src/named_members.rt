// The variable that a name is bound to, among the variables of a POU.
ghost use Rattle.std.specs.Prelude.{◌≡◌, ◌-◌, option_and_then};
ghost use Rattle.std.specs.List.{slice_get};

use typing::Member;

// The variable of a number in declared order, from 1.
fn numbered(members: &[Member], number: usize) -> Option<Member>
    ensures { result ≡ slice_get members.now (number - 1) }
{
    match members.get(number.saturating_sub(1)) {
        None => None,
        Some(member) => Some(*member),
    }
}

/// The variable that a name is bound to, by its number, in constant time.
pub(crate) fn member_bound(members: &[Member], bound: Option<usize>) -> Option<Member>
    ensures { result ≡ option_and_then (λ number. slice_get members.now (number - 1)) bound }
{
    match bound {
        None => None,
        Some(number) => numbered(members, number),
    }
}
