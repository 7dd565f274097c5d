// When a clause may be held no more, and what is left then.

ghost use Rattle.std.specs.Prelude.{◌≡◌, ◌<◌, ◌≤◌, ◌&&◌, not, false, IsTrue, OnOk, OnErr, OnSome, IfNone, length, drop};
ghost use Rattle.std.specs.List.{list_any};
ghost use Rattle.clause_core.specs.Deletions.{is_always, is_covered};
ghost use Rattle.derivation_check.specs.Checks.{derivation_from};
ghost use Rattle.derivation_check.specs.Deletions.{may_delete};
ghost use Rattle.derivation_check.specs.Inside.{is_empty};

use crate::cover_index::CoverIndex;
use crate::fault::DelFault;
use clause_core::{Clause, Cnf, Lit, is_always, is_covered, is_covered_by};

/// How many derived clauses are held no more.
#[derive(Clone, Copy)]
pub(crate) struct Gone {
    /// In all.
    all: usize,
    /// Since the test of fresh clauses was made.
    since_test: usize,
}

impl Gone {
    /// None.
    pub const NONE: Gone = Gone {
        all: 0,
        since_test: 0,
    };

    /// Notes one more of so many that were derived; whether more than half of those that the test holds are gone.
    pub fn note(&mut self, has_test: bool, derived: usize) -> bool {
        self.all = self.all.wrapping_add(1);
        self.since_test = if has_test {
            self.since_test.wrapping_add(1)
        } else {
            0
        };
        self.since_test > derived.wrapping_sub(self.all)
    }
}

/// What shows that a clause may be held no more.
#[derive(Clone, Copy)]
pub(crate) enum Cover {
    /// The clause at this place is a part of it.
    At(usize),
    /// Some clause is.
    Some,
}

// A clause that is held and is a part of the one of this number: one that is guessed, or any.
fn cover_of(covers: &mut CoverIndex, cnf: &Cnf, number: usize, literals: &[Lit]) -> Option<Cover>
    ensures some { OnSome result (IsTrue (is_covered cnf.now.clauses number literals.now)) }
    ensures none { IfNone result (is_covered cnf.now.clauses number literals.now ≡ false) }
{
    let guess = covers.guess(cnf, number.wrapping_sub(1), literals);
    let held = cnf.clauses();
    if let Some(place) = guess {
        if is_covered_by(held, place, number, literals) {
            return Some(Cover::At(place));
        }
    }
    if is_covered(held, number, literals) {
        Some(Cover::Some)
    } else {
        None
    }
}

// Judges a clause by its literals.
fn judge_clause(
    covers: &mut CoverIndex,
    cnf: &Cnf,
    number: usize,
    literals: &[Lit],
) -> Result<Cover, DelFault>
    ensures ok { OnOk result
        (IsTrue (not (is_always literals.now) && is_covered cnf.now.clauses number literals.now)) }
    ensures err { OnErr result
        ((not (is_always literals.now) && is_covered cnf.now.clauses number literals.now) ≡ false) }
{
    if is_always(literals) {
        return Err(DelFault::NotHeld);
    }
    match cover_of(covers, cnf, number, literals) {
        Some(cover) => Ok(cover),
        None => Err(DelFault::NotCovered),
    }
}

/// Whether the clause of a number may be held no more, where the first `given` are the formula's.
pub(crate) fn judge_deletion(
    covers: &mut CoverIndex,
    cnf: &Cnf,
    given: usize,
    number: usize,
) -> Result<Cover, DelFault>
    requires { given ≤ length cnf.now.clauses }
    ensures ok { OnOk result (IsTrue (may_delete (derivation_from given cnf.now) number)) }
    ensures derived { OnOk result (given < number) }
    ensures some { OnOk result (1 ≤ cnf.now.variables) }
    ensures err { OnErr result (may_delete (derivation_from given cnf.now) number ≡ false) }
{
    if cnf.variables() == 0 || number <= given {
        return Err(DelFault::NotHeld);
    }
    match cnf.clauses().get(number - 1) {
        None => Err(DelFault::NotHeld),
        Some(clause) => judge_clause(covers, cnf, number, clause.literals()),
    }
}

// Whether a clause is empty.
fn has_empty(clauses: &[Clause]) -> bool
    ensures { result ≡ list_any is_empty clauses.now }
{
    for clause in clauses {
        if clause.literals().is_empty() {
            return true;
        }
    }
    false
}

/// Whether a derived clause is empty, where one was before.
pub(crate) fn is_refuted(was: bool, cnf: &Cnf, given: usize) -> bool
    requires { given ≤ length cnf.now.clauses }
    ensures { result ≡ (was && list_any is_empty (drop given cnf.now.clauses)) }
{
    if !was {
        return false;
    }
    let (_, derived) = cnf.clauses().split_at(given);
    has_empty(derived)
}
