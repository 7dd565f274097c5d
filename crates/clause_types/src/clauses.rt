// Clauses of relation files.
ghost use Rattle.std.specs.Prelude.{◌≡◌, IfOk, None};
ghost use Rattle.rules.specs.Rules.{first_in};
ghost use Rattle.source_tree.specs.SyntaxView.{tree_view};
ghost use Rattle.program_tree.specs.View.{expr_view};
ghost use Rattle.typing.specs.Judged.{judged_clause};
ghost use Rattle.typing.specs.Typed.{typed};

use expr_types::{judge_condition, type_expr};
use program_tree::TypedExpr;
use rules::{Refusal, Rule};
use source_tree::Expr;
use std::alloc::{AllocError, Global};
use typing::Scope;

/// What a clause breaks first of the rules on types; a clause is BOOL. Its paths stand for cells and values of the scope. Fails
/// where memory runs out.
#[tactic(auto, unfolding(rules::specs::Outcomes::outcome_of))]
pub fn judge_clause<S: Scope>(
    alloc: Global,
    scope: &S,
    clause: &Expr,
) -> Result<Option<Refusal>, AllocError>
    ensures { IfOk result (λ first. first ≡ first_in (judged_clause (S.means scope.now) (tree_view clause.now)).broken) }
{
    let judged = judge_condition(alloc, scope, Rule::NotBool, clause)?;
    Ok(judged.first)
}

/// The typed expression that a clause stands for. Fails where memory runs out.
pub fn typed_clause<S: Scope>(
    alloc: Global,
    scope: &S,
    clause: &Expr,
) -> Result<TypedExpr, AllocError>
    ensures { IfOk result (λ e. expr_view e ≡ typed (S.means scope.now) None (tree_view clause.now)) }
{
    type_expr(alloc, scope, None, clause)
}
