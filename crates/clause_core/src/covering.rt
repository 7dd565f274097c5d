// Clauses that are a part of another.

ghost use Rattle.std.specs.Prelude.{◌≡◌, ◌&&◌, not, ℕ, false, IsTrue, OnSome, IfNone};
ghost use Rattle.std.specs.List.{list_any};
ghost use Rattle.clause_core.specs.Deletions.{is_literal, is_always, is_part, is_covered};

use crate::clause::Clause;
use crate::literal::Lit;

/// Whether a clause is variable 1 or its negation, as what is held no more is.
#[inline]
pub fn is_always(literals: &[Lit]) -> bool
    ensures { result ≡ is_always literals.now }
{
    match literals {
        [first, second] => first.rank() == 2 && second.rank() == 3,
        _ => false,
    }
}

// Looks for a literal from a place on; the place behind the first that is found.
fn place_behind(clause: &[Lit], from: usize, literal: Lit) -> Option<usize>
    ensures found { OnSome result (IsTrue (list_any (is_literal literal) clause.now)) }
    ensures none { IfNone result (from ≡ 0 → list_any (is_literal literal) clause.now ≡ false) }
{
    for place in from..clause.len() {
        if literal.rank() == clause[place].rank() {
            return Some(place + 1);
        }
    }
    None
}

// Looks for a literal from a place on, and then from the front.
fn place_around(clause: &[Lit], from: usize, literal: Lit) -> Option<usize>
    ensures found { OnSome result (IsTrue (list_any (is_literal literal) clause.now)) }
    ensures none { IfNone result (list_any (is_literal literal) clause.now ≡ false) }
{
    match place_behind(clause, from, literal) {
        Some(place) => Some(place),
        None => place_behind(clause, 0, literal),
    }
}

/// Whether each literal of a clause stands in another one. Where both are in one order, this takes time in proportion to their
/// literals.
pub fn is_part(part: &[Lit], clause: &[Lit]) -> bool
    ensures { result ≡ is_part part.now clause.now }
{
    let mut place = 0;
    for literal in part {
        match place_around(clause, place, *literal) {
            None => {
                return false;
            }
            Some(next) => {
                place = next;
            }
        }
    }
    true
}

/// Whether a clause that is held, but not the one of this number, from 1, is a part of the clause. It takes one pass over what is
/// held, up to the first.
pub fn is_covered(held: &[Clause], number: usize, clause: &[Lit]) -> bool
    ensures { result ≡ is_covered held.now number clause.now }
{
    for (index, other) in held.iter().enumerate() {
        let literals = other.literals();
        if index + 1 != number && !is_always(literals) && is_part(literals, clause) {
            return true;
        }
    }
    false
}

/// Whether a clause is held, and is a part of another.
#[inline]
pub fn is_held_part(part: &[Lit], literals: &[Lit]) -> bool
    ensures { result ≡ (not (is_always part.now) && is_part part.now literals.now) }
{
    !is_always(part) && is_part(part, literals)
}

/// Whether the clause at a place, from 0, is held, has not this number, from 1, and is a part of the clause.
pub fn is_covered_by(held: &[Clause], place: usize, number: usize, literals: &[Lit]) -> bool
    ensures { IsTrue result → IsTrue (is_covered held.now number literals.now) }
{
    match held.get(place) {
        None => false,
        Some(other) => place + 1 != number && is_held_part(other.literals(), literals),
    }
}
