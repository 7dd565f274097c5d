ghost use Rattle.std.specs.Prelude.{◌≡◌, ℕ, Bool, true, List};
ghost use Rattle.clause_core.specs.Satisfaction.{Satisfies, clause_true, HasNoSolution};
ghost use Rattle.clause_core.specs.Logs.{Accepts, Refutes};
ghost use Rattle.clause_core.specs.declared.literal.Lit.{Lit};
ghost use Rattle.clause_core.specs.declared.step.Step.{Step};
ghost use Rattle.clause_core.specs.declared.log.Entry.{Entry};

use crate::clause::Clause;
use crate::hints::Hints;

/// A derived clause, and the numbers of the clauses that derive it by unit propagation.
#[derive(Drop)]
pub struct Step {
    pub clause: Clause,
    pub hints: Hints,
}

/// The clause of an accepted step is true wherever the held clauses are.
pub fn law_accepted()
    ensures { (variables : ℕ) (held : List (List Lit)) (s : Step) → Accepts variables held s
        → (v : ℕ → Bool) → Satisfies v held → clause_true v s.clause ≡ true }
{}

/// A formula that a log refutes has no satisfying assignment.
pub fn law_refutes()
    ensures { (variables : ℕ) (formula : List (List Lit)) (log : List Entry)
        → Refutes variables formula log → HasNoSolution formula }
{}
