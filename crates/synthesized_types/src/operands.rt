// The types of a chain and its operands.
ghost use Rattle.std.specs.Prelude.{◌≡◌};
ghost use Rattle.source_tree.specs.Syntax.{chain};
ghost use Rattle.source_tree.specs.SyntaxView.{tree_view, links_view};
ghost use Rattle.typing.specs.Typing.{synthesized, synthesized_of_first, operand_type};
ghost use Rattle.synthesized_types.specs.Names.{meant};
ghost use Rattle.synthesized_types.specs.Operands.{synthesized_of_operands, kind_of_operands, synthesized_of_chain};

use crate::kinds::{bool_type, compares, or_dint, synthesized, synthesized_of_links};
use crate::names::look_up;
use plc_types::DataType;
use source_tree::{Expr, Link};
use typing::{Meaning, Scope};

fn synthesized_of_first<S: Scope>(scope: &S, links: &[Link]) -> Option<DataType>
    ensures { result ≡ synthesized_of_first (S.means scope.now) (links_view links.now) }
{
    match links.first() {
        None => None,
        Some(link) => synthesized(scope, &link.right),
    }
}

// Their synthesized type: that of the first; where it has none, that of those that are joined to it.
fn synthesized_of_operands<S: Scope>(
    scope: &S,
    of_first: Option<DataType>,
    links: &[Link],
) -> Option<DataType>
    ensures { result ≡ synthesized_of_operands (S.means scope.now) of_first (links_view links.now) }
{
    match of_first {
        Some(kind) => Some(kind),
        None => {
            if compares(links) {
                synthesized_of_first(scope, links)
            } else {
                synthesized_of_links(scope, links)
            }
        }
    }
}

// Their type, where a type is expected of the chain, or none.
fn kind_of_operands(
    expected: Option<DataType>,
    of_operands: Option<DataType>,
    links: &[Link],
) -> DataType
    ensures { result ≡ kind_of_operands expected of_operands (links_view links.now) }
{
    if compares(links) {
        or_dint(of_operands)
    } else {
        or_dint(of_operands.or(expected))
    }
}

// The synthesized type of the chain.
fn synthesized_of_chain(of_operands: Option<DataType>, links: &[Link]) -> Option<DataType>
    ensures { result ≡ synthesized_of_chain of_operands (links_view links.now) }
{
    if compares(links) {
        Some(bool_type())
    } else {
        of_operands
    }
}

/// What the first operand of a chain stands for, where it is a name that stands for something; the type of the operands where a type
/// is expected of the chain, or none; and the synthesized type of the chain.
#[derive(Clone, Copy)]
pub struct ChainTypes {
    pub meaning: Option<Meaning>,
    pub kind: DataType,
    pub synthesized: Option<DataType>,
}

/// Looks up what types a chain and its operands have.
pub fn chain_types<S: Scope>(
    scope: &S,
    expected: Option<DataType>,
    first: &Expr,
    links: &[Link],
) -> ChainTypes
    ensures meaning { result.meaning ≡ meant (S.means scope.now) (tree_view first.now) }
    ensures kind { result.kind ≡ operand_type (S.means scope.now) expected (tree_view first.now) (links_view links.now) }
    ensures synthesized { result.synthesized ≡ synthesized (S.means scope.now) (chain (tree_view first.now) (links_view links.now)) }
{
    let seen = look_up(scope, first);
    let of_operands = synthesized_of_operands(scope, seen.synthesized, links);
    let kind = kind_of_operands(expected, of_operands, links);
    let synthesized = synthesized_of_chain(of_operands, links);
    ChainTypes {
        meaning: seen.meaning,
        kind,
        synthesized,
    }
}
