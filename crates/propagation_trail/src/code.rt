// Literals and clauses in one number each.

ghost use Rattle.std.specs.Prelude.{◌≡◌, ◌<◌, ◌^◌};
ghost use Rattle.clause_core.specs.Clauses.{rank};
ghost use Rattle.propagation_trail.specs.Codes.{negated};

use clause_core::Lit;

/// A held clause: its number, as hints name it, from 1.
#[derive(Clone, Copy, PartialEq, Eq)]
pub struct ClauseRef {
    pub number: u32,
}

impl ClauseRef {
    /// No clause.
    pub const NONE: ClauseRef = ClauseRef { number: 0 };

    /// The clause at a place of the list of all, which counts from 0.
    pub fn at(place: u32) -> ClauseRef {
        ClauseRef {
            number: place.wrapping_add(1),
        }
    }

    /// The place of the clause in the list of all.
    pub fn place(self) -> usize {
        self.number.wrapping_sub(1) as usize
    }
}

/// A literal in one number, its rank: twice its variable, and one more for its negative.
#[derive(Clone, Copy)]
pub struct Code {
    pub number: u32,
}

/// The rank of the literal with the other sign.
#[inline(always)]
pub fn negated(code: u32) -> u32
    ensures { result ≡ negated code }
{
    2 * (code / 2) + (1 - code % 2)
}

impl Code {
    /// No literal of a clause: variable 0.
    pub const NONE: Code = Code { number: 0 };

    /// The number of a literal. One of a variable of 2^31 or more has none.
    #[inline(always)]
    pub fn of(literal: Lit) -> Code
        ensures { rank literal < 2 ^ 32 → result.number ≡ rank literal }
    {
        let rank = literal.rank();
        Code {
            number: if rank < 0x1_0000_0000 { rank as u32 } else { 0 },
        }
    }

    /// The literal of a number.
    #[inline(always)]
    pub fn literal(self) -> Lit {
        Lit {
            variable: self.number / 2,
            negative: self.number % 2 == 1,
        }
    }

    /// The literal with the other sign.
    #[inline(always)]
    pub fn negated(self) -> Code {
        Code {
            number: negated(self.number),
        }
    }

    /// Whether it is the negative of its variable.
    #[inline(always)]
    pub fn is_negative(self) -> bool {
        self.number % 2 == 1
    }

    /// The place of its variable in a table by variables.
    #[inline(always)]
    pub fn variable(self) -> usize {
        (self.number / 2) as usize
    }

    /// Its own place in a table by literals.
    #[inline(always)]
    pub fn place(self) -> usize {
        self.number as usize
    }
}
