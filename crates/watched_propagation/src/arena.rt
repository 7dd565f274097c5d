// The clauses, one behind the other in one vector. They never change.

ghost use Rattle.std.specs.Prelude.{◌≡◌, ◌<◌, ◌++◌, ◌∷◌, [], List, ℕ, All, length, map, OnErr, OnOk};
ghost use Rattle.clause_core.specs.Clauses.{rank};
ghost use Rattle.watched_propagation.specs.Arenas.{clauses_of, IsSpan};
ghost use Rattle.watched_propagation.specs.Propagations.{AreSmall};
ghost use Rattle.watched_propagation.specs.Watching.{clause_in};

use clause_core::Lit;
use propagation_trail::Code;
use std::alloc::{AllocError, Global};
use std::marker::Model;

/// Where the literals of a clause stand.
#[derive(Clone, Copy)]
pub(crate) struct Span {
    start: usize,
    end: usize,
}

/// The literals of each clause, as their ranks. Contracts see the list of the clauses.
#[derive(Drop)]
pub(crate) struct Arena {
    codes: Vec<u32>,
    spans: Vec<Span>,
}

impl Model for Arena {
    ghost use Rattle.std.specs.Prelude.{List, ℕ, All, length};

    ghost Value = { List (List ℕ) };

    ghost use Rattle.watched_propagation.specs.Arenas.{clauses_of, IsSpan};

    ghost view = { λ a. clauses_of a.codes.items a.spans.items };

    ghost invariant = { λ a. All (IsSpan (length a.codes.items)) a.spans.items };
}

/// The literals of the clause of this place; none past the end.
#[inline(always)]
fn codes_at<'a>(codes: &'a [u32], spans: &[Span], place: usize) -> &'a [u32]
    requires { All (IsSpan (length codes.now)) spans.now }
    ensures { result.now ≡ clause_in (clauses_of codes.now spans.now) place }
{
    if place < spans.len() {
        let span = spans[place];
        &codes[span.start..span.end]
    } else {
        &[]
    }
}

/// Adds the rank of each literal. Where memory ends some may be added.
fn push_ranks(codes: &mut Vec<u32>, literals: &[Lit]) -> Result<(), AllocError>
    requires { AreSmall literals.now }
    ensures ok { OnOk result (codes.new.items ≡ codes.old.items ++ map rank literals.now) }
    ensures more { (more : List ℕ) × (codes.new.items ≡ codes.old.items ++ more) }
{
    for literal in literals {
        codes.push(Code::of(*literal).number)?;
    }
    Ok(())
}

/// Adds a clause behind the others, in both vectors.
fn add_clause(
    codes: &mut Vec<u32>,
    spans: &mut Vec<Span>,
    literals: &[Lit],
) -> Result<(), AllocError>
    requires small { AreSmall literals.now }
    requires spans { All (IsSpan (length codes.old.items)) spans.old.items }
    ensures spans { All (IsSpan (length codes.new.items)) spans.new.items }
    ensures ok { OnOk result (clauses_of codes.new.items spans.new.items ≡ clauses_of codes.old.items spans.old.items ++ map rank literals.now ∷ []) }
    ensures err { OnErr result (clauses_of codes.new.items spans.new.items ≡ clauses_of codes.old.items spans.old.items) }
{
    let start = codes.len();
    push_ranks(codes, literals)?;
    let end = codes.len();
    spans.push(Span { start, end })?;
    Ok(())
}

impl Arena {
    /// The arena of no clause.
    pub fn new(alloc: Global) -> Arena
        ensures { result ≡ [] }
    {
        Arena {
            codes: Vec::new(alloc),
            spans: Vec::new(alloc),
        }
    }

    /// How many clauses there are.
    #[inline(always)]
    pub fn len(&self) -> usize
        ensures { result ≡ length self.now }
    {
        self.spans.len()
    }

    /// The literals of the clause of this place, as their ranks; none past the end.
    #[inline(always)]
    pub fn codes(&self, place: usize) -> &[u32]
        ensures { result.now ≡ clause_in self.now place }
    {
        codes_at(self.codes.as_slice(), self.spans.as_slice(), place)
    }

    /// Adds a clause behind the others.
    pub fn push(&mut self, literals: &[Lit]) -> Result<(), AllocError>
        requires { AreSmall literals.now }
        ensures ok { OnOk result (self.new ≡ self.old ++ map rank literals.now ∷ []) }
        ensures err { OnErr result (self.new ≡ self.old) }
    {
        add_clause(&mut self.codes, &mut self.spans, literals)
    }
}
