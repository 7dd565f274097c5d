// What judging a construct tells.
use crate::rule::{Refusal, Rule};

/// Whether a construct is whole, and the first rule that is broken in it.
#[derive(Clone, Copy)]
pub struct Outcome {
    pub whole: bool,
    pub first: Option<Refusal>,
}

#[tactic(auto, unfolding(crate::specs::Outcomes::outcome_of, crate::specs::Outcomes::both, crate::specs::Outcomes::tried))]
impl Outcome {
    ghost use Rattle.std.specs.Prelude.{◌≡◌};
    ghost use Rattle.rules.specs.Judgements.{ok, suppressed, whole_if, breaks};
    ghost use Rattle.rules.specs.Outcomes.{outcome_of, both, tried, ruled};

    /// A construct that breaks no rule.
    pub fn ok() -> Outcome
        ensures { result ≡ outcome_of ok }
    {
        Outcome {
            whole: true,
            first: None,
        }
    }

    /// A construct that says nothing, since a name in it is broken.
    pub fn suppressed() -> Outcome
        ensures { result ≡ outcome_of suppressed }
    {
        Outcome {
            whole: false,
            first: None,
        }
    }

    /// A construct that breaks no rule, and is whole or uses a name that is broken.
    pub fn whole_if(whole: bool) -> Outcome
        ensures { result ≡ outcome_of (whole_if whole) }
    {
        Outcome { whole, first: None }
    }

    /// A construct that breaks a rule.
    pub fn breaks(rule: Rule, at: usize) -> Outcome
        ensures { result ≡ outcome_of (breaks rule at) }
    {
        Outcome {
            whole: false,
            first: Some(Refusal { rule, at }),
        }
    }

    /// Two parts of a construct.
    pub fn and(self, other: Outcome) -> Outcome
        ensures { result ≡ both self other }
    {
        Outcome {
            whole: self.whole && other.whole,
            first: Refusal::earlier(self.first, other.first),
        }
    }

    /// A construct with these parts, which breaks a rule where they are whole and its test fails.
    pub fn require(self, holds: bool, rule: Rule, at: usize) -> Outcome
        ensures { result ≡ tried self holds rule at }
    {
        if self.whole && !holds {
            self.and(Outcome::breaks(rule, at))
        } else {
            self
        }
    }

    /// A construct with these parts, which breaks a rule where they are whole and there is one.
    pub fn ruled(self, rule: Option<Rule>, at: usize) -> Outcome
        ensures { result ≡ ruled self rule at }
    {
        match rule {
            None => self,
            Some(rule) => self.require(false, rule, at),
        }
    }
}
