ghost use Rattle.std.specs.Prelude.{◌≡◌};
ghost use Rattle.gates.specs.Literals.{is_true, is_false, plain, same_lit, opposite_lits};

use clause_core::Lit;

/// The constant TRUE, which is variable 1.
pub const TRUE: Lit = Lit {
    variable: 1,
    negative: false,
};

/// The constant FALSE.
pub const FALSE: Lit = Lit {
    variable: 1,
    negative: true,
};

#[inline]
pub(crate) fn is_true(l: Lit) -> bool
    ensures { result ≡ is_true l }
{
    l.variable == 1 && !l.negative
}

#[inline]
pub(crate) fn is_false(l: Lit) -> bool
    ensures { result ≡ is_false l }
{
    l.variable == 1 && l.negative
}

#[inline]
pub(crate) fn are_same(a: Lit, b: Lit) -> bool
    ensures { result ≡ same_lit a b }
{
    a.variable == b.variable && a.negative == b.negative
}

#[inline]
pub(crate) fn are_opposite(a: Lit, b: Lit) -> bool
    ensures { result ≡ opposite_lits a b }
{
    a.variable == b.variable && a.negative != b.negative
}

/// The literal of a variable.
#[inline]
pub(crate) fn plain(variable: u32) -> Lit
    ensures { result ≡ plain variable }
{
    Lit {
        variable,
        negative: false,
    }
}
