// Expressions that may be names, looked up once.
ghost use Rattle.std.specs.Prelude.{◌≡◌};
ghost use Rattle.source_tree.specs.SyntaxView.{tree_view};
ghost use Rattle.typing.specs.Typing.{kind_at, synthesized};
ghost use Rattle.synthesized_types.specs.Names.{meant};

use crate::kinds::{kind_at, synthesized};
use plc_types::DataType;
use source_tree::Expr;
use typing::{Meaning, Scope};

/// What a name stands for, where an expression is one that stands for something, and the synthesized type of the expression.
#[derive(Clone, Copy)]
pub struct Seen {
    pub meaning: Option<Meaning>,
    pub synthesized: Option<DataType>,
}

fn seen_by(meaning: Option<Meaning>) -> Seen
    ensures meaning { result.meaning ≡ meaning }
    ensures synthesized { result.synthesized ≡ kind_at meaning }
{
    Seen {
        meaning,
        synthesized: kind_at(meaning),
    }
}

/// Looks an expression up: a name once.
pub fn look_up<S: Scope>(scope: &S, expr: &Expr) -> Seen
    ensures meaning { result.meaning ≡ meant (S.means scope.now) (tree_view expr.now) }
    ensures synthesized { result.synthesized ≡ synthesized (S.means scope.now) (tree_view expr.now) }
{
    match expr {
        Expr::Path(path) => seen_by(scope.meaning(path)),
        Expr::Enumerator(_, value) => seen_by(scope.value(value)),
        _ => Seen {
            meaning: None,
            synthesized: synthesized(scope, expr),
        },
    }
}
