// Initial values, which labels are too: a literal, `-` and a literal, a name, or `type#value` (IEC 61131-3, 2.4.3.2).
ghost use Rattle.source_tree.specs.SyntaxView as view;
ghost use Rattle.grammar.specs.Declarations as spec;
ghost use Rattle.grammar.specs.Reading.{Gives, ahead};

use crate::cursor::{after, minus, named, token, upper};
use crate::literal::constant;
use grammar::Stop;
use plc_types::UnaryOperator;
use source_tree::{Expr, Mark, Name, Path, Terminal, Tok};
use std::alloc::Global;

/// An initial value that begins with a name, from the place behind it: the name, or `type#value`.
#[tactic(auto, unfolding(grammar::specs::Declarations::named_value))]
fn named_value(
    alloc: Global,
    name: Name,
    toks: &[Tok<'_>],
    end: usize,
    at: usize,
) -> Result<(Expr, usize), Stop>
    ensures { Gives view.tree_view toks.now result (spec.named_value (view.name_view name) (ahead toks.now at)) }
{
    match after(Mark::Hash, toks, at) {
        Some(at) => {
            let (value, at) = named(alloc, toks, end, at)?;
            Ok((Expr::Enumerator(name, value), at))
        }
        None => {
            let path = Path {
                first: name,
                members: Vec::new(alloc),
            };
            Ok((Expr::Path(path), at))
        }
    }
}

/// A literal, or `-` and a literal.
#[tactic(auto, unfolding(grammar::specs::Declarations::literal_value))]
fn literal_value(
    alloc: Global,
    toks: &[Tok<'_>],
    end: usize,
    at: usize,
) -> Result<(Expr, usize), Stop>
    ensures { Gives view.tree_view toks.now result (spec.literal_value (ahead toks.now at)) }
{
    match minus(toks, at) {
        Some((place, at)) => {
            let (found, at) = constant(toks, end, at)?;
            let value = Box::new(alloc, Expr::Literal(found))?;
            Ok((Expr::Unary(UnaryOperator::Minus, place, value), at))
        }
        None => {
            let (found, at) = constant(toks, end, at)?;
            Ok((Expr::Literal(found), at))
        }
    }
}

/// An initial value.
#[tactic(auto, unfolding(grammar::specs::Declarations::initial_value))]
pub fn initial_value(
    alloc: Global,
    toks: &[Tok<'_>],
    end: usize,
    at: usize,
) -> Result<(Expr, usize), Stop>
    ensures { Gives view.tree_view toks.now result (spec.initial_value (ahead toks.now at)) }
{
    match token(toks, at) {
        Some(first) if first.terminal == Terminal::Name => {
            let name = upper(alloc, first.slice, first.at)?;
            named_value(alloc, name, toks, end, at + 1)
        }
        _ => literal_value(alloc, toks, end, at),
    }
}

/// `:=` and an initial value, or nothing.
#[tactic(auto, unfolding(grammar::specs::Declarations::initial))]
pub fn initial(
    alloc: Global,
    toks: &[Tok<'_>],
    end: usize,
    at: usize,
) -> Result<(Option<Expr>, usize), Stop>
    ensures { Gives view.initial_view toks.now result (spec.initial (ahead toks.now at)) }
{
    match after(Mark::Assign, toks, at) {
        Some(at) => {
            let (value, at) = initial_value(alloc, toks, end, at)?;
            Ok((Some(value), at))
        }
        None => Ok((None, at)),
    }
}
