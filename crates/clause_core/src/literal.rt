ghost use Rattle.std.specs.Prelude.{◌≡◌};
ghost use Rattle.clause_core.specs.Clauses.{rank};
ghost use Rattle.clause_core.specs.Values.{negation};

/// A literal: a variable, numbered from 1, or its negative. Variable 1 is the constant TRUE where a
/// formula says so by the clause of it alone.
#[derive(Clone, Copy, Default)]
pub struct Lit {
    pub variable: u32,
    pub negative: bool,
}

impl Lit {
    /// The literal with the other sign.
    #[inline]
    pub fn negated(self) -> Lit
        ensures { result ≡ negation self }
    {
        Lit {
            variable: self.variable,
            negative: !self.negative,
        }
    }

    /// The place of the literal in the order of all: by variable, a variable before its negative.
    #[inline]
    pub fn rank(self) -> u64
        ensures { result ≡ rank self }
    {
        let double = self.variable as u64 * 2;
        if self.negative { double + 1 } else { double }
    }
}
