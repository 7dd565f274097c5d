// What constructs break.
ghost use Rattle.std.specs.Prelude.{◌≡◌};
ghost use Rattle.rules.specs.Rules.{first_in};
ghost use Rattle.relation_file.specs.Refusals.{breaks, unless};

use rules::{Refusal, Rule};

/// A rule that is broken at a place.
pub(crate) fn breaks(rule: Rule, at: usize) -> Option<Refusal>
    ensures { result ≡ first_in (breaks rule at) }
{
    Some(Refusal { rule, at })
}

/// A rule that is broken at a place unless a test holds.
pub(crate) fn unless(holds: bool, rule: Rule, at: usize) -> Option<Refusal>
    ensures { result ≡ first_in (unless holds rule at) }
{
    if holds { None } else { breaks(rule, at) }
}
